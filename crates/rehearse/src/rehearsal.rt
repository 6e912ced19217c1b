// A rehearsal: the archive on drives in memory, and what is done to it from outside.
use crate::memory::Memory;
use archive::{Archive, Fault, Reply, Sizes, holds_any};
use drives::Drives;
use keeper::refusal::Refusal;
use script::{Command, StopAt};
use slots::Owner;
use std::alloc::{AllocError, Global};
use table::Keeper;

#[derive(Drop)]
pub struct Rehearsal {
    pub archive: Archive<Memory>,
}

// The keeper as it starts on these disks. Where there is no file, the drives that are in are looked through, so that a lost file is never taken for a first start.
fn start(heap: Global, disks: &mut Memory, drives: Drives, need: u8) -> Result<Keeper, Fault> {
    let holds = disks.file().is_none() && holds_any(heap, disks, drives)?;
    Keeper::start(heap, drives, need, disks.file(), holds).map_err(|why| match why {
        Refusal::NoMemory => Fault::NoMemory,
        _ => Fault::FileFailed,
    })
}

impl Rehearsal {
    pub fn new(heap: Global, sizes: Sizes) -> Result<Rehearsal, Fault> {
        let mut disks = Memory::empty(heap, sizes.drives)?;
        let drives = Drives::new(sizes.drives).ok_or(Fault::FileFailed)?;
        let keeper = start(heap, &mut disks, drives, sizes.need)?;
        Ok(Rehearsal {
            archive: Archive {
                heap,
                keeper,
                disks,
            },
        })
    }

    // The keeper comes up again; no stop waits any more.
    pub fn come_up(&mut self) -> Result<(), Fault> {
        self.archive.disks.waiting = None;
        let drives = self.archive.keeper.drives();
        let need = self.archive.keeper.need();
        self.archive.keeper = start(self.archive.heap, &mut self.archive.disks, drives, need)?;
        Ok(())
    }

    // Plays a command that is answered by one line.
    pub fn play(&mut self, command: Command) -> Result<Reply, Fault> {
        match command {
            Command::Stop(at) => self.stop(at),
            Command::Wipe { drive } => self.wipe(drive),
            Command::Spoil {
                drive,
                object,
                version,
            } => Ok(self.spoil(drive, object, version)),
            other => self.archive.play(other),
        }
    }

    fn stop(&mut self, at: StopAt) -> Result<Reply, Fault> {
        if at == StopAt::Now {
            return Err(Fault::Stopped);
        }
        self.archive.disks.waiting = Some(at);
        Ok(Reply::Done)
    }

    fn wipe(&mut self, drive: u64) -> Result<Reply, Fault> {
        let Some(drive) = self.archive.keeper.drive_of(drive) else {
            return Ok(Reply::Refused(Refusal::NoSuch));
        };
        self.archive.disks.wipe(drive)?;
        Ok(Reply::Done)
    }

    fn spoil(&mut self, drive: u64, object: u64, version: u64) -> Reply {
        let (Some(drive), Ok(object)) = (self.archive.keeper.drive_of(drive), u8::try_from(object))
        else {
            return Reply::Refused(Refusal::NoSuch);
        };
        if self.archive.disks.spoil(Owner { object, drive }, version) {
            Reply::Done
        } else {
            // told by the number of a version with too few pieces
            Reply::Refused(Refusal::TooFewPieces)
        }
    }

    // What `show` says of a drive.
    pub fn drive_line(&mut self, drive: u8) -> Result<String, AllocError> {
        let heap = self.archive.heap;
        let state = if self.archive.keeper.drives().is_in(drive) {
            "in"
        } else {
            "out"
        };
        let mut line = format!(in heap; "drive {drive} {state}:")?;
        for object in 0..=u8::MAX {
            let versions = self.archive.disks.versions(Owner { object, drive })?;
            add_versions(&mut line, object, &versions)?;
        }
        Ok(line)
    }
}

fn add_versions(line: &mut String, object: u8, versions: &[u64]) -> Result<(), AllocError> {
    for version in versions {
        write!(line, " {object}:{version}")?;
    }
    Ok(())
}

#[cfg(test)]
mod tests {
    use super::*;
    use archive::Disks;
    use std::test::Fail;

    // No contract says what lies on the drives. Here there is no file, and the last place of the last drive holds a piece of the last object.
    #[test]
    fn a_lost_file_is_no_first_start(rt: HostRuntime) -> Result<(), Fail> {
        let heap = rt.alloc();
        let mut disks = Memory::empty(heap, 3)?;
        let mut drives = Drives::new(3).ok_or("three drives")?;
        assert!(rt;
            start(heap, &mut disks, drives, 2).is_ok(),
            "nothing on the drives"
        );
        let owner = Owner {
            object: 255,
            drive: 2,
        };
        let record = slots::encode(heap, owner, 1, &[1, 2])?.ok_or("a short piece")?;
        assert!(rt;
            disks.write(owner, 3, record.as_slice()).is_ok(),
            "the last place"
        );
        let refused = matches!(&start(heap, &mut disks, drives, 2), Err(Fault::FileFailed));
        assert!(rt; refused, "the file was lost");
        assert!(rt; drives.take_out(2), "there are three");
        assert!(rt;
            start(heap, &mut disks, drives, 2).is_ok(),
            "a drive that is out is not looked through"
        );
        Ok(())
    }
}
