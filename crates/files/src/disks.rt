// The drives' files, each open or not, and the path of the keeper's own file.
use crate::beside::{parent, sync_dir};
use crate::record::{clear_record, read_record, write_record};
use archive::entry_at;
use drives::{Drives, OBJECTS, PLACES};
use keeper::object::Entry;
use slots::{Owner, SLOT};
use std::alloc::Global;
use std::fs::{File, OpenOptions};
use std::io;

// How long a drive's file is made; it is sparse.
const DRIVE: u64 = OBJECTS as u64 * PLACES as u64 * SLOT as u64;

// A drive's file; none where it is out.
#[derive(Drop)]
pub struct Drive {
    pub path: String,
    pub file: Option<File>,
}

#[derive(Drop)]
pub struct FileDisks {
    pub rt: HostRuntime,
    pub next: String,
    pub drives: Vec<Drive>,
    // whether the files are opened for writing too
    pub writable: bool,
}

// Opens a drive's file that is there.
pub fn open_drive(rt: HostRuntime, path: &str, writable: bool) -> io::Result<File> {
    OpenOptions::new()
        .read(true)
        .write(writable)
        .open(&rt, path)
}

// Makes an empty drive's file where there is none.
pub fn make_drive(rt: HostRuntime, path: &str) -> io::Result<File> {
    let file = File::create_new(&rt, path)?;
    file.set_len(DRIVE)?;
    file.sync_all()?;
    sync_dir(rt, parent(path))?;
    Ok(file)
}

impl FileDisks {
    // The drives that are in: those whose files are open. None where there may not be so many.
    pub fn present(&self) -> Option<Drives> {
        let mut present = Drives::new(self.drives.len().min(255) as u8)?;
        for drive in 0..present.count() {
            if !self.is_open(drive) {
                let _ = present.take_out(drive);
            }
        }
        Some(present)
    }

    pub fn is_open(&self, drive: u8) -> bool {
        self.file(drive).is_some()
    }

    fn file(&self, drive: u8) -> Option<&File> {
        self.drives.get(usize::from(drive))?.file.as_ref()
    }

    // The path of a drive's file; empty where there is no such drive.
    pub fn path(&self, drive: u8) -> &str {
        match self.drives.get(usize::from(drive)) {
            Some(found) => found.path.as_str(),
            None => "",
        }
    }

    // Opens a drive's file; it is never made here.
    pub fn open(&mut self, drive: u8) -> io::Result<()> {
        let file = open_drive(self.rt, self.path(drive), self.writable)?;
        self.hold(drive, Some(file));
        Ok(())
    }

    // Makes an empty file for a drive, and refuses where there is one.
    pub fn make(&mut self, drive: u8) -> io::Result<()> {
        let file = make_drive(self.rt, self.path(drive))?;
        self.hold(drive, Some(file));
        Ok(())
    }

    pub fn close(&mut self, drive: u8) {
        self.hold(drive, None);
    }

    fn hold(&mut self, drive: u8, file: Option<File>) {
        if let Some(found) = self.drives.get_mut(usize::from(drive)) {
            found.file = file;
        }
    }

    // The file of a drive that is in, and where a slot begins in it.
    fn slot(&self, owner: Owner, place: u8) -> io::Result<(&File, u64)> {
        let file = self.file(owner.drive).ok_or(io::ErrorKind::NotFound)?;
        let at = drives::slot_start(owner.object, usize::from(place));
        Ok((file, at.ok_or(io::ErrorKind::NotFound)? as u64))
    }

    fn entry(&self, heap: Global, owner: Owner, place: u8) -> io::Result<Option<Entry>> {
        let (file, at) = self.slot(owner, place)?;
        let slot = read_record(heap, file, at, owner)?;
        Ok(entry_at(heap, slot.as_slice(), owner, place)?)
    }

    // Appends the pieces of an object on a drive.
    pub fn read_places(&self, heap: Global, owner: Owner, into: &mut Vec<Entry>) -> io::Result<()> {
        for place in 0..PLACES as u8 {
            if let Some(entry) = self.entry(heap, owner, place)? {
                into.push(entry)?;
            }
        }
        Ok(())
    }

    pub fn write_place(&self, owner: Owner, place: u8, bytes: &[u8]) -> io::Result<()> {
        let (file, at) = self.slot(owner, place)?;
        write_record(file, at, bytes)
    }

    pub fn clear_place(&self, owner: Owner, place: u8) -> io::Result<()> {
        let (file, at) = self.slot(owner, place)?;
        clear_record(self.rt.alloc(), file, at, owner)
    }
}
