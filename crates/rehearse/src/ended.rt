// Why the program ends before its input does.
use archive::{Fault, SizesError};
use std::alloc::AllocError;
use std::io;

#[derive(Drop)]
pub enum Ended {
    Usage,
    Sizes(SizesError),
    Fault(Fault),
    Io(io::Error),
}

impl From<SizesError> for Ended {
    fn from(e: SizesError) -> Ended {
        Ended::Sizes(e)
    }
}

impl From<Fault> for Ended {
    fn from(fault: Fault) -> Ended {
        Ended::Fault(fault)
    }
}

impl From<AllocError> for Ended {
    fn from(_e: AllocError) -> Ended {
        Ended::Fault(Fault::NoMemory)
    }
}

impl From<io::Error> for Ended {
    fn from(e: io::Error) -> Ended {
        Ended::Io(e)
    }
}
