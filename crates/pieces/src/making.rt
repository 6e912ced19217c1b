// Making a drive's piece of an object.
ghost use Rattle.std.specs.Prelude.{◌≡◌, ℕ, ◌+◌, ◌*◌, ◌<◌, ◌≤◌, length, replicate, IfOk, MatchResult, slice_index, vec_len};
ghost use Rattle.byte_field.specs.Byte.{add, mul};
ghost use Rattle.pieces.specs.Refusals.{Made, NotMade};
ghost use Rattle.pieces.specs.Rows.{framed, rows_for, values};

use crate::errors::PieceError;
use crate::need::Need;
use crate::rows::Rows;
use std::alloc::{AllocError, Global};

// The most bytes that an object has.
pub const MAX: usize = 65_536;

// The highest number of a drive, and the most pieces that an object needs.
pub const LAST: u8 = 31;

// The piece of `object` that a drive has, where `need` pieces give it back. It allocates one copy of the object, with its length and the zeros that fill the last
// row, and the piece.
pub fn make(heap: Global, need: u8, drive: u8, object: &[u8]) -> Result<Vec<u8>, PieceError>
    ensures { MatchResult result (λ v. Made need drive object.now v.items) (NotMade need drive object.now) }
{
    let need = Need::new(need)?;
    if drive > LAST {
        return Err(PieceError::DriveOutOfRange);
    }
    if object.len() > MAX {
        return Err(PieceError::ObjectTooLong);
    }
    let rows = Rows::framing(heap, need, object)?;
    let mut piece = vec![in heap; 0; rows.count()]?;
    rows.evaluate(&mut piece, drive + 1);
    Ok(piece)
}

// How many bytes the rows of an object of that length have: whole rows for its length and its bytes.
pub fn framed_size(need: Need, length: usize) -> usize
    requires { length ≤ 65536 }
    ensures is { result ≡ rows_for need.count length * need.count }
    ensures holds { 4 + length ≤ result }
{
    (4 + length).next_multiple_of(need.count)
}

impl Rows {
    // The rows of `object`, in one allocation.
    fn framing(heap: Global, need: Need, object: &[u8]) -> Result<Rows, AllocError>
        requires { length object.now ≤ 65536 }
        ensures { IfOk result (λ rows. (rows.need.count ≡ need.count) × (rows.flat.items ≡ framed need.count object.now)) }
    {
        let size = framed_size(need, object.len());
        let mut flat = Vec::with_capacity(heap, size)?;
        flat.extend_from_slice(&(object.len() as u32).to_be_bytes())?;
        flat.extend_from_slice(object)?;
        flat.resize(size, 0)?;
        Ok(Rows { need, flat })
    }

    fn count(&self) -> usize
        ensures { vec_len self.now.flat ≡ result * self.now.need.count }
    {
        self.flat.len() / self.need.count
    }

    // Writes into a piece of zeros the values of the rows at `x`, by Horner's rule, for all rows at once. `scale` and `add_column` are two loops, since the compiler
    // makes only the first one wide.
    fn evaluate(&self, piece: &mut [u8], x: u8)
        requires { (length self.now.flat.items ≡ length piece.old * self.now.need.count) × (piece.old ≡ replicate (length piece.old) 0) }
        ensures { piece.new ≡ values self.now.need.count (length piece.old) x self.now.flat.items }
    {
        for column in (0..self.need.count).rev() {
            scale(piece, x);
            self.add_column(piece, column);
        }
    }

    // Adds a column of the rows to the piece. By the rows' numbers: after `iter_mut().zip(..)` a proof knows nothing of what was written.
    fn add_column(&self, piece: &mut [u8], column: usize)
        requires { (column < self.now.need.count) × (length self.now.flat.items ≡ length piece.old * self.now.need.count) }
        ensures { (r : ℕ) → r < length piece.old → slice_index piece.new r ≡ add (slice_index self.now.flat.items (r * self.now.need.count + column)) (slice_index piece.old r) }
    {
        let flat = self.flat.as_slice();
        let need = self.need.count;
        for (r, value) in piece.iter_mut().enumerate() {
            *value = byte_field::sum(flat[r * need + column], *value);
        }
    }
}

// Multiplies the piece by `x`.
fn scale(piece: &mut [u8], x: u8)
    ensures { (r : ℕ) → r < length piece.old → slice_index piece.new r ≡ mul x (slice_index piece.old r) }
{
    for value in piece.iter_mut() {
        *value = byte_field::product(x, *value);
    }
}
