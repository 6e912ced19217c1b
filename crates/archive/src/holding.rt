// Whether there is anything on the drives.
use crate::disks::Disks;
use crate::fault::Fault;
use drives::Drives;
use slots::Owner;
use std::alloc::Global;

// Whether a drive holds a piece of any object.
fn holds<D: Disks>(heap: Global, disks: &mut D, drive: u8) -> Result<bool, Fault> {
    let mut entries = Vec::new(heap);
    for object in 0..=u8::MAX {
        disks.read_object(heap, Owner { object, drive }, &mut entries)?;
        if !entries.is_empty() {
            return Ok(true);
        }
    }
    Ok(false)
}

// Whether any of the drives that are in holds a piece.
pub fn holds_any<D: Disks>(heap: Global, disks: &mut D, drives: Drives) -> Result<bool, Fault> {
    for drive in 0..drives.count() {
        if drives.is_in(drive) && holds(heap, disks, drive)? {
            return Ok(true);
        }
    }
    Ok(false)
}
