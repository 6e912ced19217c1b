// The pieces of an object on a drive: found, placed, written and taken away.
ghost use Rattle.std.specs.Prelude.{◌≡◌};
ghost use Rattle.std.specs.Option.{option_map};
ghost use Rattle.slots.specs.Slot.{read_slot, has_room, written};
ghost use Rattle.drives.specs.Place.{slot_at, with_slot, readings};
ghost use Rattle.drives.specs.View.{find, place_for};
ghost use Rattle.drives.specs.Rule.{names_slot};
ghost use Rattle.drives.specs.Steps.{write_answer, after_write, taken_at, after_taking, how_many_named};

use crate::layout::{PLACES, Place, bounds, slot_of};
use crate::rule::Rule;
use crate::view::{place_in, versions};
use slots::{Owner, clear, read, write};

// Why a piece isn't written: there is no room for it, or four other versions are there.
#[derive(Clone, Copy, PartialEq, Eq, Debug)]
pub enum Unwritten {
    NoRoom,
    NoPlace,
}

// The piece of a version of an object on a drive, still in the drive's bytes. A `for`, since no lemma says which call gave the answer of `find_map`.
#[tactic(auto, using(crate::proofs::Finding::find_step, crate::proofs::Finding::find_end))]
pub fn find_piece(drive: &[u8], owner: Owner, version: u64) -> Option<&[u8]>
    ensures { option_map (λ x. x.now) result ≡ find version (readings drive.now owner.object owner.drive) }
{
    for index in 0..PLACES {
        if let Some(held) = read(slot_of(drive, owner.object, Place { index }), owner)
            && held.version == version
        {
            return Some(held.piece);
        }
    }
    None
}

// The place for a version of an object on a drive: its own, else the lowest that holds nothing that counts; none where four other versions are there.
pub fn place_for(drive: &[u8], owner: Owner, version: u64) -> Option<usize>
    ensures { result ≡ place_for version (readings drive.now owner.object owner.drive) }
{
    place_in(version, &versions(drive, owner))
}

// Writes a piece of a version at a place, and leaves every other slot. False, and nothing changes, where there is no room for it.
#[tactic(auto, using(crate::proofs::Standing::slot_cut, crate::proofs::Standing::slot_put))]
fn write_at(drive: &mut [u8], owner: Owner, place: Place, version: u64, piece: &[u8]) -> bool
    ensures answer { result ≡ has_room (slot_at drive.old owner.object place.index) piece.now }
    ensures after { drive.new ≡ with_slot drive.old owner.object place.index (written owner.object owner.drive version piece.now (slot_at drive.old owner.object place.index)) }
{
    let part = bounds(drive.len(), owner.object, place);
    write(&mut drive[part], owner, version, piece)
}

// Writes a piece of a version of an object to the place for it, and says which that is. Refused, nothing changes.
#[tactic(auto, using(crate::proofs::Placing::place_below, crate::proofs::Placing::answer_full))]
pub fn write_piece(
    drive: &mut [u8],
    owner: Owner,
    version: u64,
    piece: &[u8],
) -> Result<usize, Unwritten>
    ensures answer { result ≡ write_answer drive.old owner.object owner.drive version piece.now }
    ensures after { drive.new ≡ after_write drive.old owner.object owner.drive version piece.now }
{
    let Some(index) = place_for(drive, owner, version) else {
        return Err(Unwritten::NoPlace);
    };
    if write_at(drive, owner, Place { index }, version, piece) {
        Ok(index)
    } else {
        Err(Unwritten::NoRoom)
    }
}

// Whether a rule names what the slot at a place reads as.
fn is_named(drive: &[u8], owner: Owner, place: Place, rule: Rule) -> bool
    ensures { result ≡ names_slot rule (read_slot owner.object owner.drive (slot_at drive.now owner.object place.index)) }
{
    let held = read(slot_of(drive, owner.object, place), owner);
    held.is_some_and(|held| rule.names_version(held.version))
}

// Takes away what a rule names at a place, and says whether it does.
#[tactic(auto, using(crate::proofs::Standing::slot_cut, crate::proofs::Standing::slot_put))]
fn take_at(drive: &mut [u8], owner: Owner, place: Place, rule: Rule) -> bool
    ensures answer { result ≡ names_slot rule (read_slot owner.object owner.drive (slot_at drive.old owner.object place.index)) }
    ensures after { drive.new ≡ taken_at drive.old owner.object owner.drive place.index rule }
{
    if !is_named(drive, owner, place, rule) {
        return false;
    }
    let part = bounds(drive.len(), owner.object, place);
    clear(&mut drive[part], owner);
    true
}

// Takes away all pieces of an object that a rule names, copies too, and says how many.
#[tactic(auto, using(crate::proofs::Taking::count_yes, crate::proofs::Taking::count_no), unfolding(crate::specs::Steps::taken_below))]
pub fn take_away(drive: &mut [u8], owner: Owner, rule: Rule) -> usize
    ensures answer { result ≡ how_many_named drive.old owner.object owner.drive rule }
    ensures after { drive.new ≡ after_taking drive.old owner.object owner.drive rule }
{
    let mut gone = 0;
    for index in 0..PLACES {
        if take_at(drive, owner, Place { index }, rule) {
            gone += 1;
        }
    }
    gone
}
