// The keeper comes up from its file, or starts for the first time.
use crate::beside::told;
use crate::disks::FileDisks;
use crate::ended::Ended;
use archive::{Fault, holds_any};
use drives::Drives;
use keeper::refusal::Refusal;
use std::{fs, io};
use table::Keeper;

// The keeper on these drives: from its file, or, where there is none, a first start, if no drive that is in holds a piece.
pub fn bring_up(disks: &mut FileDisks, need: u8) -> Result<Keeper, Ended> {
    let present = disks
        .present()
        .ok_or(io::Error::from(io::ErrorKind::InvalidData))?;
    let file = kept_file(disks)?;
    let holds = file.is_none() && holds_pieces(disks, present)?;
    match Keeper::start(disks.rt.alloc(), present, need, file.as_deref(), holds) {
        Ok(keeper) => Ok(keeper),
        Err(Refusal::NoMemory) => Err(no_memory()),
        Err(Refusal::BadFile) => Err(bad_file(disks, holds)),
        Err(_) => Err(Ended::Io(io::Error::from(io::ErrorKind::InvalidData))),
    }
}

fn no_memory() -> Ended {
    Ended::Io(io::Error::from(io::ErrorKind::OutOfMemory))
}

// The keeper's file; none where there is none.
fn kept_file(disks: &FileDisks) -> Result<Option<Vec<u8>>, Ended> {
    match fs::read(&disks.rt, disks.next.as_str()) {
        Ok(file) => Ok(Some(file)),
        Err(error) => if error.kind() == io::ErrorKind::NotFound {
            Ok(None)
        } else {
            Err(told(disks.rt, disks.next.as_str(), error))
        },
    }
}

// Whether a drive that is in holds a piece of any object. A drive that fails was told of.
fn holds_pieces(disks: &mut FileDisks, present: Drives) -> Result<bool, Ended> {
    match holds_any(disks.rt.alloc(), disks, present) {
        Ok(holds) => Ok(holds),
        Err(Fault::NoMemory) => Err(no_memory()),
        Err(_) => Err(Ended::Told),
    }
}

// Says that the keeper's file was lost, or is damaged.
fn bad_file(disks: &FileDisks, lost: bool) -> Ended {
    let path = disks.next.as_str();
    let why = if lost {
        "the keeper's file is missing, and there are pieces on the drives"
    } else {
        "the keeper's file has a wrong length or a wrong sum"
    };
    let number = Refusal::BadFile.number();
    let _ = eprintln!(disks.rt; "{path}: {why} (refused {number})");
    Ended::Told
}
