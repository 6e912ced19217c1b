// What the pieces that were read of an object say: who has a version, and where a new piece can go.
ghost use Rattle.std.specs.Prelude.{◌≡◌, ◌≤◌, false, map, length, slice_index_or};
ghost use Rattle.keeper.specs.Shown.{reading_of, readings_of};
ghost use Rattle.keeper.specs.Steps.{places};
ghost use Rattle.keeper.specs.Readings.{is_of, holder as holder_of, precedes, copied as copied_of, counts_at, taken as taken_of, free_place, own_place, place_for, how_many_in, out_or_has, all_have};

use crate::object::Entry;

// How many places a drive has for an object.
const PLACES: u8 = drives::PLACES as u8;

fn is_of(entry: &Entry, drive: u8, version: u64) -> bool
    ensures { result ≡ is_of drive version (reading_of entry.now) }
{
    entry.drive == drive && entry.version == version
}

// Whether `lower` is of the same drive and version, at a lower place.
fn is_preceded(entry: &Entry, lower: &Entry) -> bool
    ensures { result ≡ precedes (reading_of entry.now) (reading_of lower.now) }
{
    is_of(lower, entry.drive, entry.version) && lower.place < entry.place
}

// Whether the entry stands in that place, and counts.
fn counts_at(entries: &[Entry], drive: u8, place: u8, entry: &Entry) -> bool
    ensures { result ≡ counts_at (readings_of entries.now) drive place (reading_of entry.now) }
{
    entry.drive == drive && entry.place == place && !is_copy(entries, entry)
}

// Whether a drive has a piece of the version.
pub fn is_holder(entries: &[Entry], drive: u8, version: u64) -> bool
    ensures { result ≡ holder_of drive version (readings_of entries.now) }
{
    entries.iter().any(|entry| is_of(entry, drive, version))
}

// Whether a lower place of the same drive has the same version, so that the place of this one counts as free.
pub fn is_copy(entries: &[Entry], copy: &Entry) -> bool
    ensures { result ≡ copied_of (readings_of entries.now) (reading_of copy.now) }
{
    entries.iter().any(|entry| is_preceded(copy, entry))
}

// Whether a place of a drive holds something that counts.
fn is_taken(entries: &[Entry], drive: u8, place: u8) -> bool
    ensures { result ≡ taken_of drive place (readings_of entries.now) }
{
    entries
        .iter()
        .any(|entry| counts_at(entries, drive, place, entry))
}

// How many drives are in.
pub fn how_many_in(present: &[bool]) -> usize
    ensures { result ≡ how_many_in (length present.now) (λ d. slice_index_or present.now d false) }
{
    drives::how_many(present)
}

// Whether all drives that are in have the version. A `for`, since the definition begins with the last drive, and `all` with the first.
pub fn all_have(entries: &[Entry], present: &[bool], version: u64) -> bool
    requires { length present.now ≤ 256 }
    ensures { result ≡ all_have (length present.now) (λ d. slice_index_or present.now d false) version (readings_of entries.now) }
{
    for (drive, is_in) in present.iter().enumerate() {
        if !is_out_or_holder(entries, *is_in, drive as u8, version) {
            return false;
        }
    }
    true
}

fn is_out_or_holder(entries: &[Entry], is_in: bool, drive: u8, version: u64) -> bool
    ensures { result ≡ out_or_has is_in drive version (readings_of entries.now) }
{
    !is_in || is_holder(entries, drive, version)
}

// The place that has the version on the drive.
fn own_place(entries: &[Entry], drive: u8, version: u64) -> Option<u8>
    ensures { result ≡ own_place drive version (readings_of entries.now) }
{
    let own = entries.iter().find(|entry| is_of(entry, drive, version))?;
    Some(own.place)
}

// The lowest place of the drive that is free.
fn free_place(entries: &[Entry], drive: u8) -> Option<u8>
    ensures { result ≡ free_place places drive 0 (readings_of entries.now) }
{
    for place in 0..PLACES {
        if !is_taken(entries, drive, place) {
            return Some(place);
        }
    }
    None
}

// A place for a version on a drive: its own, else the lowest that is free. In the definition's words: `or_else` is as long, and would need a lemma that there is
// none of its own just where the drive is no holder.
pub fn place_for(entries: &[Entry], drive: u8, version: u64) -> Option<u8>
    ensures { result ≡ place_for places drive version (readings_of entries.now) }
{
    if is_holder(entries, drive, version) {
        own_place(entries, drive, version)
    } else {
        free_place(entries, drive)
    }
}
