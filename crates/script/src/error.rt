// What can be wrong with a line.
ghost use Rattle.std.specs.Prelude.{◌≡◌};
ghost use Rattle.script.specs.declared.error.LineError.TheVariants.{NoMemory};

use std::alloc::AllocError;
use std::fmt;

#[derive(Clone, Copy, PartialEq, Eq, Debug)]
pub enum LineError {
    UnknownCommand,
    MissingWord,
    TooManyWords,
    // The word at this place of the line, counted from 1.
    NotNumber(u8),
    OddDigits,
    NotHexadecimal,
    NoMemory,
}

impl fmt::Display for LineError {
    fn fmt<W: fmt::Write>(&self, f: &mut fmt::Formatter<W>) -> fmt::Result {
        match *self {
            LineError::UnknownCommand => f.write_str("unknown command"),
            LineError::MissingWord => f.write_str("a word is missing"),
            LineError::TooManyWords => f.write_str("there are too many words"),
            LineError::NotNumber(place) => write!(f, "word {place} is not a number"),
            LineError::OddDigits => f.write_str("odd number of hexadecimal digits"),
            LineError::NotHexadecimal => f.write_str("not a hexadecimal digit"),
            LineError::NoMemory => f.write_str("out of memory"),
        }
    }
}

impl From<AllocError> for LineError {
    ghost from_gives = { λ _ r. r ≡ NoMemory };

    fn from(_e: AllocError) -> LineError {
        LineError::NoMemory
    }
}
