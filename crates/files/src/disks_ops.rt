// Files as disks: a drive that fails is told of on standard error, and its file closed.
use crate::beside::{replace, told};
use crate::disks::FileDisks;
use archive::{Disks, Fault};
use keeper::object::Entry;
use slots::Owner;
use std::alloc::Global;
use std::io;

impl FileDisks {
    fn outcome(&mut self, drive: u8, done: io::Result<()>) -> Result<(), Fault> {
        done.map_err(|error| self.fault(drive, error))
    }

    fn fault(&mut self, drive: u8, error: io::Error) -> Fault {
        if error.kind() == io::ErrorKind::OutOfMemory {
            return Fault::NoMemory;
        }
        let _ = told(self.rt, self.path(drive), error);
        self.close(drive);
        Fault::DriveFailed(drive)
    }
}

impl Disks for FileDisks {
    fn read_object(
        &mut self,
        heap: Global,
        owner: Owner,
        into: &mut Vec<Entry>,
    ) -> Result<(), Fault> {
        let done = self.read_places(heap, owner, into);
        self.outcome(owner.drive, done)
    }

    fn write(&mut self, owner: Owner, place: u8, bytes: &[u8]) -> Result<(), Fault> {
        let done = self.write_place(owner, place, bytes);
        self.outcome(owner.drive, done)
    }

    fn clear(&mut self, owner: Owner, place: u8) -> Result<(), Fault> {
        let done = self.clear_place(owner, place);
        self.outcome(owner.drive, done)
    }

    fn replace_file(&mut self, bytes: &[u8]) -> Result<(), Fault> {
        match replace(self.rt, self.next.as_str(), bytes) {
            Ok(()) => Ok(()),
            Err(error) => {
                let _ = told(self.rt, self.next.as_str(), error);
                Err(Fault::FileFailed)
            }
        }
    }
}
