// A text may have 1,048,576 numbers or bytes and no more.
use crate::reading::*;
use input::*;
use std::process::Abort;
use std::test::Fail;

const MOST: usize = 1048576;

// The whole text is there.
fn ends_at_most<S: Source>(rt: &impl Abort, source: &mut S) {
    seeks(
        rt,
        source,
        &[(0, 0x61), (MOST - 1, 0x61), (MOST, -1)],
        &[MOST + 1],
    );
}

fn takes_bytes(rt: &impl Abort, bytes: &[u8]) -> Result<(), Fail> {
    let mut source = Utf8Source::new();
    source.open(bytes)?;
    ends_at_most(rt, &mut source);
    Ok(())
}

// The source keeps the text that it had.
fn refuses_bytes(rt: &impl Abort, bytes: &[u8]) -> Result<(), Fail> {
    let mut source = Utf8Source::new();
    source.open(b"hi")?;
    assert!(rt; source.step());
    refused(rt, source.open(bytes), 8, MOST)?;
    reads(rt, &mut source, &[(1, 0x69), (2, -1)]);
    Ok(())
}

#[test]
fn too_many_bytes_are_refused(rt: HostRuntime) -> Result<(), Fail> {
    let mut bytes = vec![in rt.alloc(); 0x61; MOST]?;
    takes_bytes(&rt, &bytes)?;
    bytes.push(0x61)?;
    refuses_bytes(&rt, &bytes)?;
    assert!(rt; bytes.len() > 0);
    bytes[0] = 0xff;
    refuses_bytes(&rt, &bytes)
}

fn takes_numbers(rt: &impl Abort, numbers: &[u32]) -> Result<(), Fail> {
    let mut source = ArraySource::new();
    source.open(numbers)?;
    ends_at_most(rt, &mut source);
    Ok(())
}

// The source keeps the text that it had.
fn refuses_numbers(rt: &impl Abort, numbers: &[u32]) -> Result<(), Fail> {
    let mut source = ArraySource::new();
    source.open(&[5, 6])?;
    assert!(rt; source.step());
    refused(rt, source.open(numbers), 8, MOST)?;
    reads(rt, &mut source, &[(1, 6), (2, -1)]);
    Ok(())
}

#[test]
fn too_many_numbers_are_refused(rt: HostRuntime) -> Result<(), Fail> {
    let mut numbers = vec![in rt.alloc(); 0x61; MOST]?;
    takes_numbers(&rt, &numbers)?;
    numbers.push(0x61)?;
    refuses_numbers(&rt, &numbers)?;
    assert!(rt; numbers.len() > 0);
    numbers[0] = 1114112;
    refuses_numbers(&rt, &numbers)
}
