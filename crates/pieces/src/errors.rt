// Why a piece was not made, or an object not worked out.
ghost use Rattle.std.specs.Prelude.{◌≡◌};
ghost use Rattle.pieces.specs.Refusals.{number};
ghost use Rattle.pieces.specs.Unsolved.{unsolved};
ghost use Rattle.pieces.specs.declared.errors.PieceError.TheVariants.{NoMemory};

use elimination::Unsolved;
use std::alloc::{AllocError, AllocFailed};

#[derive(Clone, Copy, PartialEq, Eq, Debug)]
pub enum PieceError {
    // The number of pieces that give the object back isn't 1 to 31.
    NeedOutOfRange,
    // There are fewer pieces than are needed.
    TooFewPieces,
    // There are more pieces than are needed: which of them are used is for the caller to choose.
    TooManyPieces,
    // A drive's number isn't 0 to 31.
    DriveOutOfRange,
    // The object has more than 65,536 bytes.
    ObjectTooLong,
    // Two pieces have different lengths.
    DifferentLengths,
    // Two pieces are of the same drive.
    SameDrive,
    // The rows say that the object has more than 65,536 bytes.
    LengthTooLarge,
    // The rows are not as many as the object's length asks.
    WrongRowCount,
    // After the object's bytes comes one that isn't 0.
    NotZeroFilled,
    // There was no memory.
    NoMemory,
}

impl PieceError {
    pub fn code(self) -> u8
        ensures { result ≡ number self }
    {
        match self {
            PieceError::NeedOutOfRange => 1,
            PieceError::TooFewPieces => 2,
            PieceError::TooManyPieces => 3,
            PieceError::DriveOutOfRange => 4,
            PieceError::ObjectTooLong => 5,
            PieceError::DifferentLengths => 6,
            PieceError::SameDrive => 7,
            PieceError::LengthTooLarge => 8,
            PieceError::WrongRowCount => 9,
            PieceError::NotZeroFilled => 10,
            PieceError::NoMemory => 11,
        }
    }
}

impl From<AllocError> for PieceError {
    ghost from_gives = { λ _ r. r ≡ NoMemory };

    fn from(_e: AllocError) -> PieceError {
        PieceError::NoMemory
    }
}

impl<T: Drop> From<AllocFailed<T>> for PieceError {
    ghost from_gives = { λ _ r. r ≡ NoMemory };

    fn from(_e: AllocFailed<T>) -> PieceError {
        PieceError::NoMemory
    }
}

impl From<Unsolved> for PieceError {
    ghost from_gives = { λ e r. r ≡ unsolved e };

    fn from(e: Unsolved) -> PieceError {
        match e {
            Unsolved::NoPoints => PieceError::TooFewPieces,
            Unsolved::Uneven => PieceError::DifferentLengths,
            Unsolved::SamePoint => PieceError::SameDrive,
            Unsolved::NoMemory => PieceError::NoMemory,
        }
    }
}
