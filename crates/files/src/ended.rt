// Why a program on files ends before its input does.
use archive::SizesError;
use std::alloc::AllocError;
use std::io;

#[derive(Drop)]
pub enum Ended {
    // what is wrong was told on standard error already
    Told,
    Sizes(SizesError),
    Io(io::Error),
}

impl From<SizesError> for Ended {
    fn from(e: SizesError) -> Ended {
        Ended::Sizes(e)
    }
}

impl From<AllocError> for Ended {
    fn from(e: AllocError) -> Ended {
        Ended::Io(io::Error::from(e))
    }
}

impl From<io::Error> for Ended {
    fn from(e: io::Error) -> Ended {
        Ended::Io(e)
    }
}

impl Ended {
    // Says on standard error what a program ended by, where that wasn't told yet.
    pub fn tell(self, rt: HostRuntime, program: &str) {
        let _ = match self {
            Ended::Told => Ok(()),
            Ended::Sizes(e) => eprintln!(rt; "{program}: {e}"),
            Ended::Io(e) => eprintln!(rt; "{program}: {e}"),
        };
    }
}
