// The versions that an object has on a drive, place by place.
ghost use Rattle.std.specs.Prelude.{◌≡◌, ℕ, ◌<◌, List, map, length, None, slice_index_or};
ghost use Rattle.slots.specs.Slot.{read_slot};
ghost use Rattle.drives.specs.Place.{slot_at, readings};
ghost use Rattle.drives.specs.View.{same, index_of, firsts, place_in, version_of, distinct};

use crate::layout::{PLACES, Place, slot_of};
use slots::{Owner, read};
use std::array;

// The lowest place at which `wanted` stands.
fn index_of(wanted: Option<u64>, versions: &[Option<u64>]) -> Option<usize>
    ensures { result ≡ index_of wanted versions.now }
{
    versions.iter().position(|version| wanted == *version)
}

// The place for a version where these versions count: its own, else the lowest free one; none where all have other versions.
pub fn place_in(version: u64, versions: &[Option<u64>]) -> Option<usize>
    ensures { result ≡ place_in version versions.now }
{
    index_of(Some(version), versions).or_else(|| index_of(None, versions))
}

// The version that the slot at a place has, whether or not it counts.
fn version_at(drive: &[u8], owner: Owner, place: Place) -> Option<u64>
    ensures { result ≡ version_of (read_slot owner.object owner.drive (slot_at drive.now owner.object place.index)) }
{
    Some(read(slot_of(drive, owner.object, place), owner)?.version)
}

// The versions at all places, whether or not they count.
fn all_versions(drive: &[u8], owner: Owner) -> [Option<u64>; PLACES]
    ensures { result ≡ map version_of (readings drive.now owner.object owner.drive) }
{
    array::from_fn(|index| version_at(drive, owner, Place::at(index)))
}

// The version that counts at a place: none where an earlier place has it.
fn first_at(all: &[Option<u64>], place: usize) -> Option<u64>
    requires { place < length all.now }
    ensures { result ≡ slice_index_or (firsts all.now) place None }
{
    if all[..place].contains(&all[place]) {
        None
    } else {
        all[place]
    }
}

// The versions that count of an object on a drive, place by place: what an earlier place has counts once.
pub fn versions(drive: &[u8], owner: Owner) -> [Option<u64>; PLACES]
    ensures { result ≡ map version_of (distinct (readings drive.now owner.object owner.drive)) }
{
    let all = all_versions(drive, owner);
    array::from_fn(|place| first_at(&all, place))
}
