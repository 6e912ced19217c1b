// Where the slots of an object lie on a drive.
ghost use Rattle.std.specs.Prelude.{◌≡◌, ◌+◌, ◌<◌, min, length, if◌then◌else◌, Some, None, nat_lt};
ghost use Rattle.slots.specs.Layout.{slot_size};
ghost use Rattle.drives.specs.Place.{places, objects, slot_from, slot_at};

use slots::SLOT;
use std::ops::Range;

// How many places a drive has for an object, and how many objects there are. Both will grow: nothing else says them in the code.
pub const PLACES: usize = 4;

pub const OBJECTS: usize = 256;

// One of the places that a drive has for an object.
#[derive(Clone, Copy)]
pub(crate) struct Place {
    pub(crate) index: usize,
    ghost within: { index < places },
}

impl Place {
    // For closures: there the bound is asked by a call, and not by the literal.
    pub(crate) fn at(index: usize) -> Place
        requires { index < places }
        ensures { result.index ≡ index }
    {
        Place { index }
    }
}

// How many places an object has, and how many objects there are.
pub fn sizes() -> (usize, usize)
    ensures { (result.0 ≡ places) × (result.1 ≡ objects) }
{
    (PLACES, OBJECTS)
}

// The byte of a drive at which the slot at a place of an object begins.
fn start(object: u8, place: Place) -> usize
    ensures { result ≡ slot_from object place.index }
{
    (usize::from(object) * PLACES + place.index) * SLOT
}

// The same; none where there is no such place.
pub fn slot_start(object: u8, place: usize) -> Option<usize>
    ensures { result ≡ (if nat_lt place places then Some (slot_from object place) else None) }
{
    (place < PLACES).then(|| start(object, Place::at(place)))
}

// The bytes of that slot on a drive of so many bytes.
pub(crate) fn bounds(len: usize, object: u8, place: Place) -> Range<usize>
    ensures { (result.start ≡ min (slot_from object place.index) len) × (result.end ≡ min (slot_from object place.index + slot_size) len) }
{
    let from = start(object, place);
    from.min(len)..(from + SLOT).min(len)
}

// That slot's part of a lent drive; what lies past the drive's end isn't there.
pub(crate) fn slot_of(drive: &[u8], object: u8, place: Place) -> &[u8]
    ensures { result.now ≡ slot_at drive.now object place.index }
{
    &drive[bounds(drive.len(), object, place)]
}
