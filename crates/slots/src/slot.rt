// A slot read, written and cleared.
ghost use Rattle.std.specs.Prelude.{◌≡◌, ◌+◌, ◌≤◌, length, IfOk, vec_items, MatchOption};
ghost use Rattle.std.specs.Option.{option_map};
ghost use Rattle.slots.specs.Layout.{slot_size, number_at, header_of, put_at, record_room, record_for};
ghost use Rattle.slots.specs.Slot.{read_slot, reading, is_held, has_room, written, cleared};
ghost use Rattle.slots.specs.Header.{Names, NoHeader};

use crate::sum::adler;
use std::alloc::{AllocError, Global};

// How many bytes a slot has room for. It will grow: nothing else says it in the code.
pub const SLOT: usize = 65_559;

// The first byte of every record.
const KIND: u8 = 87;

// A record's bytes before its piece, and behind it.
pub const HEADER: usize = 15;

const TRAILER: usize = 4;

// The longest piece that a slot has room for.
const PIECE: usize = SLOT - HEADER - TRAILER;

// Whose piece a slot is for: an object's, on a drive.
#[derive(Clone, Copy, PartialEq, Eq, Debug)]
pub struct Owner {
    pub object: u8,
    pub drive: u8,
}

// What a slot holds: a piece, still in the slot's bytes, of a version.
#[derive(Clone, Copy)]
pub struct Held<'a> {
    pub version: u64,
    pub piece: &'a [u8],
}

// How many bytes a slot has room for.
pub fn slot_len() -> usize
    ensures { result ≡ slot_size }
{
    SLOT
}

// How long the record of a piece of so many bytes is; none where a slot has no room for it.
pub fn record_len(piece: usize) -> Option<usize>
    ensures { result ≡ record_room piece }
{
    (piece <= PIECE).then(|| HEADER + piece + TRAILER)
}

// What stands before a piece.
#[derive(Clone, Copy)]
struct Header {
    owner: Owner,
    version: u64,
    len: usize,
}

// What a slot's first bytes name; none where they are too few or begin with something else.
fn read_header(slot: &[u8]) -> Option<Header>
    ensures { MatchOption result (NoHeader slot.now) (λ h. Names slot.now h) }
{
    let [
        KIND,
        object,
        drive,
        v0,
        v1,
        v2,
        v3,
        v4,
        v5,
        v6,
        v7,
        l0,
        l1,
        l2,
        l3,
        ..
    ] = slot
    else {
        return None;
    };
    let version = u64::from_be_bytes([*v0, *v1, *v2, *v3, *v4, *v5, *v6, *v7]);
    let len = u32::from_be_bytes([*l0, *l1, *l2, *l3]) as usize;
    Some(Header {
        owner: Owner {
            object: *object,
            drive: *drive,
        },
        version,
        len,
    })
}

// What a slot's bytes hold for an object and a drive. What doesn't fit, has a wrong sum, or is another object's or another drive's isn't there.
#[tactic(auto, unfolding(crate::specs::Slot::fits, crate::specs::Slot::read_slot))]
pub fn read(slot: &[u8], owner: Owner) -> Option<Held<'_>>
    ensures { reading result ≡ read_slot owner.object owner.drive slot.now }
{
    let header = read_header(slot)?;
    if header.owner != owner || header.len > PIECE {
        return None;
    }
    let (summed, behind) = slot.split_at_checked(HEADER + header.len)?;
    let sum = behind.first_chunk::<TRAILER>()?;
    if u32::from_be_bytes(*sum) != adler(summed) {
        return None;
    }
    Some(Held {
        version: header.version,
        piece: &summed[HEADER..],
    })
}

// What stands before a piece, in bytes.
#[tactic(auto, using(crate::proofs::Numbers::bytes8, crate::proofs::Numbers::bytes4))]
fn header_bytes(owner: Owner, version: u64, len: u32) -> [u8; HEADER]
    ensures { result ≡ header_of owner.object owner.drive version len }
{
    let mut bytes = [0; HEADER];
    bytes[..3].copy_from_slice(&[KIND, owner.object, owner.drive]);
    bytes[3..11].copy_from_slice(&version.to_be_bytes());
    bytes[11..].copy_from_slice(&len.to_be_bytes());
    bytes
}

// Writes a field at a place of a slot; the bytes before and behind it stay.
fn put(slot: &mut [u8], at: usize, field: &[u8])
    requires { at + length field.now ≤ length slot.old }
    ensures { slot.new ≡ put_at slot.old at field.now }
{
    slot[at..at + field.len()].copy_from_slice(field);
}

// Writes a piece's record at the front of a slot's place, and leaves what lies behind it. Where the place, or a slot, has no room for it: false, and nothing
// changes.
#[tactic(auto, unfolding(crate::specs::Slot::written))]
pub fn write(slot: &mut [u8], owner: Owner, version: u64, piece: &[u8]) -> bool
    ensures answer { result ≡ has_room slot.old piece.now }
    ensures after { slot.new ≡ written owner.object owner.drive version piece.now slot.old }
{
    let Some(end) = record_len(piece.len()) else {
        return false;
    };
    if slot.len() < end {
        return false;
    }
    put(slot, 0, &header_bytes(owner, version, piece.len() as u32));
    put(slot, HEADER, piece);
    let sum = adler(&slot[..end - TRAILER]);
    put(slot, end - TRAILER, &sum.to_be_bytes());
    true
}

// Takes away what a slot holds for an object and a drive: zeros over its whole record. False, and nothing changes, where it holds nothing.
#[tactic(auto, using(crate::proofs::Clearing::held_within, crate::proofs::Clearing::cleared_filled), unfolding(crate::specs::Slot::cleared))]
pub fn clear(slot: &mut [u8], owner: Owner) -> bool
    ensures answer { result ≡ is_held (read_slot owner.object owner.drive slot.old) }
    ensures after { slot.new ≡ cleared owner.object owner.drive slot.old }
{
    let Some(held) = read(slot, owner) else {
        return false;
    };
    let end = HEADER + held.piece.len() + TRAILER;
    slot[..end].fill(0);
    true
}

// A piece's record in bytes of its own; none where a slot has no room for it.
#[tactic(auto, unfolding(crate::specs::Layout::record_of))]
pub fn encode(
    heap: Global,
    owner: Owner,
    version: u64,
    piece: &[u8],
) -> Result<Option<Vec<u8>>, AllocError>
    ensures { IfOk result (λ v. option_map vec_items v ≡ record_for owner.object owner.drive version piece.now) }
{
    let Some(len) = record_len(piece.len()) else {
        return Ok(None);
    };
    let mut bytes = Vec::with_capacity(heap, len)?;
    bytes.extend_from_slice(&header_bytes(owner, version, piece.len() as u32))?;
    bytes.extend_from_slice(piece)?;
    let sum = adler(bytes.as_slice());
    bytes.extend_from_slice(&sum.to_be_bytes())?;
    Ok(Some(bytes))
}
