ghost use Rattle.std.specs.Prelude.{◌≡◌, Some};
ghost use Rattle.decimals.specs.Shown.{line_of};
ghost use Rattle.decimals.specs.declared.error.NumbersError.TheVariants.{NoMemory};

use std::alloc::AllocFailed;
use std::error::Error;
use std::fmt;

/// Why a text gives no numbers. A line is counted from 1, and is that of the first word that is wrong.
#[derive(Clone, Copy, PartialEq, Eq, Debug)]
pub enum NumbersError {
    /// There is no word.
    NoNumber,
    /// In this line: a word that is not a decimal number.
    NotANumber(usize),
    /// In this line: a decimal number that is below -2147483648 or above 2147483647.
    OutOfRange(usize),
    /// There was no memory for the numbers.
    NoMemory,
}

impl<T: Drop> From<AllocFailed<T>> for NumbersError {
    ghost from_gives = { λ _ r. r ≡ NoMemory };

    fn from(_refused: AllocFailed<T>) -> NumbersError {
        NumbersError::NoMemory
    }
}

impl fmt::Display for NumbersError {
    ghost output = { λ e. Some (line_of e) };

    fn fmt<W: fmt::Write>(&self, f: &mut fmt::Formatter<W>) -> fmt::Result {
        match *self {
            NumbersError::NoNumber => write!(f, "holds no number"),
            NumbersError::NotANumber(line) => write!(f, "line {line}: not a decimal number"),
            NumbersError::OutOfRange(line) => {
                write!(f, "line {line}: a number that does not fit 32 bits")
            }
            NumbersError::NoMemory => write!(f, "no memory for the numbers"),
        }
    }
}

impl Error for NumbersError {}
