// How well the objects are kept.
use crate::archive::Archive;
use crate::disks::Disks;
use crate::fault::Fault;
use drives::Drives;
use keeper::object::Entry;
use keeper::readings::is_holder;
use std::alloc::{AllocError, Global};
use std::fmt;

// An object whose bar isn't 0: its bar, and how many drives that are in have a piece of it.
#[derive(Clone, Copy, PartialEq, Eq, Debug)]
pub struct Kept {
    pub object: u8,
    pub version: u64,
    pub pieces: u8,
}

// The drives that are not weak, and how each object is kept.
#[derive(Drop)]
pub struct Count {
    pub strong: Drives,
    pub objects: Vec<Kept>,
}

impl fmt::Display for Kept {
    fn fmt<W: fmt::Write>(&self, f: &mut fmt::Formatter<W>) -> fmt::Result {
        let Kept {
            object,
            version,
            pieces,
        } = *self;
        if pieces == 0 {
            write!(f, "object {object} none")
        } else {
            write!(f, "object {object} version {version} pieces {pieces}")
        }
    }
}

// The drives that are in, without those that lack a version that one of them has; and how many have it.
fn strong_for(drives: Drives, entries: &[Entry], version: u64) -> (Drives, u8) {
    let mut strong = drives;
    let mut pieces: u8 = 0;
    for drive in 0..drives.count() {
        if is_holder(entries, drive, version) {
            pieces = pieces.saturating_add(1);
        } else {
            let _ = strong.take_out(drive);
        }
    }
    (strong, pieces)
}

// The drives that are in in both.
fn both(a: Drives, b: Drives) -> Drives {
    let mut both = a;
    for drive in 0..a.count() {
        if !b.is_in(drive) {
            let _ = both.take_out(drive);
        }
    }
    both
}

impl Count {
    // The line that names the weak drives.
    pub fn weak_line(&self, heap: Global) -> Result<String, AllocError> {
        let strong = self.strong;
        let weak = usize::from(strong.count()).saturating_sub(strong.how_many_in());
        let mut line = format!(in heap; "weak {weak}:")?;
        for drive in 0..strong.count() {
            if !strong.is_in(drive) {
                write!(line, " {drive}")?;
            }
        }
        Ok(line)
    }

    // An object's part, added.
    fn add(
        &mut self,
        drives: Drives,
        entries: &[Entry],
        object: u8,
        version: u64,
    ) -> Result<(), AllocError> {
        let (strong, pieces) = strong_for(drives, entries, version);
        if pieces > 0 {
            self.strong = both(self.strong, strong);
        }
        self.objects.push(Kept {
            object,
            version,
            pieces,
        })?;
        Ok(())
    }
}

impl<D: Disks> Archive<D> {
    // Counts, for each object whose bar isn't 0, the drives that are in and have it.
    pub fn count(&mut self) -> Result<Count, Fault> {
        let mut count = Count {
            strong: self.keeper.drives(),
            objects: Vec::new(self.heap),
        };
        for object in 0..=u8::MAX {
            let bar = self.keeper.bar(object);
            if bar != 0 {
                let entries = self.on_all(u64::from(object))?;
                count.add(self.keeper.drives(), &entries, object, bar)?;
            }
        }
        Ok(count)
    }
}
