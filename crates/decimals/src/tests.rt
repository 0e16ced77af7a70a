use crate::{NumbersError, read_numbers};
use std::process::Abort;
use std::test::Fail;

// Checks that a text is read as the expected numbers.
fn check_reads(rt: &(impl Abort + AllocGlobal), text: &[u8], expected: &[i32]) -> Result<(), Fail> {
    let numbers = read_numbers(rt.alloc(), text)?;
    assert_eq!(rt; numbers.as_slice(), expected);
    Ok(())
}

// Checks that a text is refused, and with which words.
fn check_refuses(
    rt: &(impl Abort + AllocGlobal),
    text: &[u8],
    expected: NumbersError,
    words: &str,
) -> Result<(), Fail> {
    match read_numbers(rt.alloc(), text) {
        Ok(_) => Err(Fail::new("not refused")),
        Err(error) => {
            assert_eq!(rt; error, expected);
            assert_eq!(rt; error.to_string(rt.alloc())?.as_str(), words);
            Ok(())
        }
    }
}

#[test]
fn texts_are_read(rt: HostRuntime) -> Result<(), Fail> {
    check_reads(&rt, b"7", &[7])?;
    check_reads(&rt, b"1 -2\t003\r\n\x0b\x0c-0", &[1, -2, 3, 0])?;
    check_reads(&rt, b"# 1 x\n12#x\n#\n3 # 4\n", &[12, 3])?;
    check_reads(&rt, b"-2147483648 2147483647", &[-2147483648, 2147483647])
}

#[test]
fn texts_without_a_number_are_refused(rt: HostRuntime) -> Result<(), Fail> {
    let none = "holds no number";
    check_refuses(&rt, b"", NumbersError::NoNumber, none)?;
    check_refuses(&rt, b"# 1\n \n#2", NumbersError::NoNumber, none)
}

#[test]
fn other_words_are_refused(rt: HostRuntime) -> Result<(), Fail> {
    let first = "line 1: not a decimal number";
    check_refuses(&rt, b"-", NumbersError::NotANumber(1), first)?;
    check_refuses(&rt, b"--1", NumbersError::NotANumber(1), first)?;
    check_refuses(&rt, b"1-", NumbersError::NotANumber(1), first)?;
    check_refuses(&rt, b"99999999999x", NumbersError::NotANumber(1), first)?;
    check_refuses(
        &rt,
        b"1\n# x\n2 +3\n9999999999",
        NumbersError::NotANumber(3),
        "line 3: not a decimal number",
    )
}

#[test]
fn large_numbers_are_refused(rt: HostRuntime) -> Result<(), Fail> {
    let words = "line 2: a number that does not fit 32 bits";
    check_refuses(&rt, b"\n2147483648 x", NumbersError::OutOfRange(2), words)?;
    check_refuses(&rt, b"\n-2147483649", NumbersError::OutOfRange(2), words)?;
    check_refuses(
        &rt,
        b"\n18446744073709551617",
        NumbersError::OutOfRange(2),
        words,
    )
}
