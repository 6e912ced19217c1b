// Why a step is refused.
ghost use Rattle.std.specs.Prelude.{◌≡◌};
ghost use Rattle.keeper.specs.Steps.{number as number_as_told};
ghost use Rattle.keeper.specs.declared.refusal.Refusal.TheVariants.{NoMemory};

use std::alloc::{AllocError, AllocFailed};

// Nothing has changed where a step is refused. Cases that share a number are told by the same number.
#[derive(Clone, Copy, PartialEq, Eq, Debug)]
pub enum Refusal {
    // no such object or drive
    NoSuch,
    // the object has more bytes than an object may have
    TooLong,
    Unsure,
    BeingWritten,
    NotBeingWritten,
    NotUnsure,
    DriveOut,
    // as many other versions of the object are on the drive as it has places
    NoPlace,
    // not all drives that are in have the new version
    NotEverywhere,
    // fewer drives are in than are needed
    TooFewIn,
    // fewer pieces of the version are in than are needed, or they don't work out to an object
    TooFewPieces,
    // the object counts no version
    CountsNone,
    // the keeper's file has another length or a wrong sum
    BadFile,
    // all version numbers are used up
    NoMoreVersions,
    // want of memory
    NoMemory,
}

impl Refusal {
    // The number by which a refusal is told.
    pub fn number(self) -> u8
        ensures { result ≡ number_as_told self }
    {
        match self {
            Refusal::NoMemory => 0,
            Refusal::NoSuch => 1,
            Refusal::TooLong => 1,
            Refusal::Unsure => 2,
            Refusal::BeingWritten => 3,
            Refusal::NotBeingWritten => 4,
            Refusal::NotUnsure => 4,
            Refusal::DriveOut => 5,
            Refusal::NoPlace => 5,
            Refusal::NotEverywhere => 6,
            Refusal::TooFewIn => 6,
            Refusal::TooFewPieces => 7,
            Refusal::CountsNone => 7,
            Refusal::BadFile => 8,
            Refusal::NoMoreVersions => 9,
        }
    }
}

impl From<AllocError> for Refusal {
    ghost from_gives = { λ _ r. r ≡ NoMemory };

    fn from(_e: AllocError) -> Refusal {
        Refusal::NoMemory
    }
}

impl<T: Drop> From<AllocFailed<T>> for Refusal {
    ghost from_gives = { λ _ r. r ≡ NoMemory };

    fn from(_e: AllocFailed<T>) -> Refusal {
        Refusal::NoMemory
    }
}
