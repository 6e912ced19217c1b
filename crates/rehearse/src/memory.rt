// Drives in memory, and the keeper's file, with a stop that may wait.
use crate::slot::{clear_over, spoil, version_at, write_over};
use archive::{Disks, Fault, entry_at};
use drives::{OBJECTS, PLACES};
use keeper::object::Entry;
use script::StopAt;
use slots::Owner;
use std::alloc::{AllocError, Global};
use std::array;

// A drive: the places of each object. A slot that was never written takes no memory.
#[derive(Drop)]
pub struct Drive {
    objects: Vec<[Vec<u8>; PLACES]>,
}

#[derive(Drop)]
pub struct Memory {
    heap: Global,
    drives: Vec<Drive>,
    // none until it is first written
    file: Option<Vec<u8>>,
    // the stop that waits
    pub waiting: Option<StopAt>,
}

impl Drive {
    fn empty(heap: Global) -> Result<Drive, AllocError> {
        let mut objects = Vec::with_capacity(heap, OBJECTS)?;
        for _ in 0..OBJECTS {
            objects.push(array::from_fn(|_| Vec::new(heap)))?;
        }
        Ok(Drive { objects })
    }
}

impl Memory {
    // So many drives with nothing on them, and no file.
    pub fn empty(heap: Global, count: u8) -> Result<Memory, AllocError> {
        let mut drives = Vec::new(heap);
        for _ in 0..count {
            drives.push(Drive::empty(heap)?)?;
        }
        Ok(Memory {
            heap,
            drives,
            file: None,
            waiting: None,
        })
    }

    // The keeper's file, if it was ever written.
    pub fn file(&self) -> Option<&[u8]> {
        Some(self.file.as_ref()?.as_slice())
    }

    // The places of an object on a drive; none where there is no such drive.
    fn places(&mut self, owner: Owner) -> Option<&mut [Vec<u8>; PLACES]> {
        self.drives
            .get_mut(usize::from(owner.drive))?
            .objects
            .get_mut(usize::from(owner.object))
    }

    fn slot(&mut self, owner: Owner, place: u8) -> Result<&mut Vec<u8>, Fault> {
        self.places(owner)
            .and_then(|places| places.get_mut(usize::from(place)))
            .ok_or(Fault::DriveFailed(owner.drive))
    }

    // The drive has nothing any more.
    pub fn wipe(&mut self, drive: u8) -> Result<(), AllocError> {
        if let Some(found) = self.drives.get_mut(usize::from(drive)) {
            *found = Drive::empty(self.heap)?;
        }
        Ok(())
    }

    // Turns a bit of the piece of a version; false where there is no such piece.
    pub fn spoil(&mut self, owner: Owner, version: u64) -> bool {
        self.places(owner).is_some_and(|places| {
            places
                .iter_mut()
                .any(|slot| spoil(slot.as_mut_slice(), owner, version))
        })
    }

    // The versions that a drive has of an object, in order, each once.
    pub fn versions(&mut self, owner: Owner) -> Result<Vec<u64>, AllocError> {
        let mut versions = Vec::new(self.heap);
        let Some(places) = self.places(owner) else {
            return Ok(versions);
        };
        for slot in places.iter() {
            if let Some(version) = version_at(slot.as_slice(), owner) {
                versions.push(version)?;
            }
        }
        versions.sort_unstable();
        versions.dedup();
        Ok(versions)
    }

    // Whether the stop that waits falls on the slot that is to be written now.
    fn is_cut(&mut self) -> bool {
        match self.waiting {
            Some(StopAt::Slot(left)) => {
                self.waiting = Some(StopAt::Slot(left.saturating_sub(1)));
                left <= 1
            }
            _ => false,
        }
    }
}

fn outcome(cut: bool) -> Result<(), Fault> {
    if cut { Err(Fault::Stopped) } else { Ok(()) }
}

impl Disks for Memory {
    fn read_object(
        &mut self,
        heap: Global,
        owner: Owner,
        into: &mut Vec<Entry>,
    ) -> Result<(), Fault> {
        let Some(places) = self.places(owner) else {
            return Ok(());
        };
        for (place, slot) in (0..).zip(places.iter()) {
            if let Some(entry) = entry_at(heap, slot.as_slice(), owner, place)? {
                into.push(entry)?;
            }
        }
        Ok(())
    }

    fn write(&mut self, owner: Owner, place: u8, bytes: &[u8]) -> Result<(), Fault> {
        let cut = self.is_cut();
        let slot = self.slot(owner, place)?;
        write_over(slot, bytes, cut)?;
        outcome(cut)
    }

    fn clear(&mut self, owner: Owner, place: u8) -> Result<(), Fault> {
        let cut = self.is_cut();
        let slot = self.slot(owner, place)?;
        clear_over(slot.as_mut_slice(), owner, cut);
        outcome(cut)
    }

    fn replace_file(&mut self, bytes: &[u8]) -> Result<(), Fault> {
        if self.waiting == Some(StopAt::FileOld) {
            return Err(Fault::Stopped);
        }
        match &mut self.file {
            Some(file) if file.len() == bytes.len() => file.as_mut_slice().copy_from_slice(bytes),
            _ => self.file = Some(Vec::from_slice(self.heap, bytes)?),
        }
        outcome(self.waiting == Some(StopAt::FileNew))
    }
}
