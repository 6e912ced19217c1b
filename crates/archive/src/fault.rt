// What can go wrong.
ghost use Rattle.std.specs.Prelude.{◌≡◌};
ghost use Rattle.archive.specs.declared.fault.Fault.TheVariants.{NoMemory};
ghost use Rattle.archive.specs.declared.fault.Failure.TheVariants.{Refused, Outside};

use keeper::refusal::Refusal;
use std::alloc::{AllocError, AllocFailed};
use std::fmt;

// What can go wrong outside the keeper.
#[derive(Clone, Copy, PartialEq, Eq, Debug)]
pub enum Fault {
    // The keeper was stopped, and has to come up again.
    Stopped,
    // A drive that is in can't be read or written any more.
    DriveFailed(u8),
    // The keeper's own file can't be replaced.
    FileFailed,
    NoMemory,
}

// Why a step isn't done: the keeper refuses it, or something goes wrong outside.
#[derive(Clone, Copy, PartialEq, Eq, Debug)]
pub enum Failure {
    Refused(Refusal),
    Outside(Fault),
}

impl fmt::Display for Fault {
    fn fmt<W: fmt::Write>(&self, f: &mut fmt::Formatter<W>) -> fmt::Result {
        match *self {
            Fault::Stopped => f.write_str("stopped"),
            Fault::DriveFailed(drive) => write!(f, "drive {drive} failed and is out"),
            Fault::FileFailed => f.write_str("the keeper's file could not be replaced"),
            Fault::NoMemory => f.write_str("out of memory"),
        }
    }
}

impl From<AllocError> for Fault {
    ghost from_gives = { λ _ r. r ≡ NoMemory };

    fn from(_e: AllocError) -> Fault {
        Fault::NoMemory
    }
}

impl<T: Drop> From<AllocFailed<T>> for Fault {
    ghost from_gives = { λ _ r. r ≡ NoMemory };

    fn from(_e: AllocFailed<T>) -> Fault {
        Fault::NoMemory
    }
}

impl From<Refusal> for Failure {
    ghost from_gives = { λ why r. r ≡ Refused why };

    fn from(why: Refusal) -> Failure {
        Failure::Refused(why)
    }
}

impl From<AllocError> for Failure {
    ghost from_gives = { λ _ r. r ≡ Outside NoMemory };

    fn from(_e: AllocError) -> Failure {
        Failure::Outside(Fault::NoMemory)
    }
}

impl From<Fault> for Failure {
    ghost from_gives = { λ fault r. r ≡ Outside fault };

    fn from(fault: Fault) -> Failure {
        Failure::Outside(fault)
    }
}
