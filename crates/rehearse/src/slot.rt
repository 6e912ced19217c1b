// A slot in memory: its bytes from the first on, as many as were ever written; those behind are zeros.
use slots::{HEADER, Owner, SLOT};
use std::alloc::AllocError;

// Writes bytes to the front of a slot. Where the writing is cut, only those at even places get there, and the slot is then held in full, since the length
// that its header names may be any.
pub fn write_over(slot: &mut Vec<u8>, bytes: &[u8], cut: bool) -> Result<(), AllocError> {
    let len = if cut {
        bytes.len().max(SLOT)
    } else {
        bytes.len()
    };
    if slot.len() < len {
        slot.resize(len, 0)?;
    }
    if cut {
        mix(slot.as_mut_slice(), bytes);
    } else {
        slot.as_mut_slice()[0..bytes.len()].copy_from_slice(bytes);
    }
    Ok(())
}

// The new bytes come to the even places, and the odd ones keep the old.
fn mix(slot: &mut [u8], bytes: &[u8]) {
    for (old, new) in slot.iter_mut().zip(bytes).step_by(2) {
        *old = *new;
    }
}

// Writes zeros over the record in a slot, and nothing where there is none. Where that is cut, only those at even places get there.
pub fn clear_over(slot: &mut [u8], owner: Owner, cut: bool) {
    if cut {
        let len = record_len(slot, owner);
        for byte in slot.iter_mut().take(len).step_by(2) {
            *byte = 0;
        }
    } else {
        let _ = slots::clear(slot, owner);
    }
}

// How many bytes the record in a slot has; 0 where there is none.
fn record_len(slot: &[u8], owner: Owner) -> usize {
    slots::read(slot, owner)
        .and_then(|held| slots::record_len(held.piece.len()))
        .unwrap_or(0)
}

// The version that a slot holds.
pub fn version_at(slot: &[u8], owner: Owner) -> Option<u64> {
    Some(slots::read(slot, owner)?.version)
}

// Turns the lowest bit of the first byte of the piece of a version. False, and nothing changes, where the slot doesn't hold it.
pub fn spoil(slot: &mut [u8], owner: Owner, version: u64) -> bool {
    if version_at(slot, owner) != Some(version) || slot.len() <= HEADER {
        return false;
    }
    slot[HEADER] ^= 1;
    true
}
