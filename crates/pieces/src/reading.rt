// Reading an object off its rows.
ghost use Rattle.std.specs.Prelude.{◌≡◌, ◌<◌, MatchResult, slice_index};
ghost use Rattle.pieces.specs.Given.{length_in};
ghost use Rattle.pieces.specs.Outcomes.{Read};
ghost use Rattle.pieces.specs.Refusals.{NotRead};

use crate::errors::PieceError;
use crate::making::{MAX, framed_size};
use crate::rows::Rows;
use std::alloc::Global;

impl Rows {
    // The object whose rows these are.
    pub fn read(&self, heap: Global) -> Result<Vec<u8>, PieceError>
        ensures { MatchResult result (λ v. Read self.now.need.count self.now.flat.items v.items) (NotRead self.now.need.count self.now.flat.items) }
    {
        let flat = self.flat.as_slice();
        let length = length_in(flat);
        if length > MAX {
            return Err(PieceError::LengthTooLarge);
        }
        if flat.len() != framed_size(self.need, length) {
            return Err(PieceError::WrongRowCount);
        }
        let used = 4 + length;
        if flat[used..].iter().any(|byte| *byte != 0) {
            return Err(PieceError::NotZeroFilled);
        }
        Ok(Vec::from_slice(heap, &flat[4..used])?)
    }
}

// The object's length as the first 4 bytes say it. Rows of fewer bytes have a length too, so no `from_be_bytes`.
fn length_in(flat: &[u8]) -> usize
    ensures { result ≡ length_in flat.now }
{
    ((byte_at(flat, 0) * 256 + byte_at(flat, 1)) * 256 + byte_at(flat, 2)) * 256 + byte_at(flat, 3)
}

// The byte at a place, 0 past the end.
fn byte_at(flat: &[u8], place: usize) -> usize
    ensures { (result ≡ slice_index flat.now place) × (result < 256) }
{
    usize::from(flat.get(place).copied().unwrap_or(0))
}
