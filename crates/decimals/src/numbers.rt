ghost use Rattle.std.specs.Prelude.{◌≡◌, ◌↔◌, min, true, IsSome, IfSome};
ghost use Rattle.decimals.specs.Numbers.{Reads, is_digits, is_negative, number_of, size_of, unsigned, with_sign};
ghost use Rattle.decimals.specs.Words.{found};

use crate::error::NumbersError;
use crate::words::{Word, Words};
use std::alloc::Global;

// The largest size that is told exactly; it is past every signed 32-bit number.
const MOST: u64 = 0xffff_ffff;

// The number that digits write, or `u32::MAX` where it is larger; `None` where they are no digits.
fn size_of_digits(digits: &[u8]) -> Option<u32>
    ensures digits { IsSome result ↔ (is_digits digits.now ≡ true) }
    ensures size { IfSome result (λ n. n ≡ min (size_of digits.now) 4294967295) }
{
    if digits.is_empty() {
        return None;
    }
    // In one pass, since a word may be long. Past 32 bits only that is told.
    let size = digits.iter().try_fold(0, |size: u64, digit| {
        if digit.is_ascii_digit() {
            Some(size.min(MOST) * 10 + u64::from(*digit - b'0'))
        } else {
            None
        }
    })?;
    Some(size.min(MOST) as u32)
}

// The value of a word, held between -4294967295 and 4294967295; `None` where it is no decimal number.
// Not `parse`, which takes a `+`, and finds a word too large before it sees that a later byte is no digit.
fn value_of(word: &[u8]) -> Option<i64>
    ensures digits { IsSome result ↔ (is_digits (unsigned word.now) ≡ true) }
    ensures value { IfSome result
        (λ z. z ≡ with_sign (is_negative word.now) (min (size_of (unsigned word.now)) 4294967295)) }
{
    match word {
        [b'-', digits @ ..] => Some(-i64::from(size_of_digits(digits)?)),
        digits => Some(i64::from(size_of_digits(digits)?)),
    }
}

// The number that a word says.
fn number_of(word: Word<'_>) -> Result<i32, NumbersError>
    ensures { result ≡ number_of (found word.entry.line word.entry.bytes.now) }
{
    let value = value_of(word.bytes).ok_or(NumbersError::NotANumber(word.line))?;
    i32::try_from(value).map_err(|_| NumbersError::OutOfRange(word.line))
}

/// The numbers that the words of a text say, in order: at least one.
pub fn read_numbers(heap: Global, text: &[u8]) -> Result<Vec<i32>, NumbersError>
    ensures { Reads text.now result }
{
    let mut numbers = Vec::new(heap);
    for word in Words::of(text) {
        numbers.push(number_of(word)?)?;
    }
    if numbers.is_empty() {
        return Err(NumbersError::NoNumber);
    }
    Ok(numbers)
}
