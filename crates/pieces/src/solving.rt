// The rows behind pieces, by one elimination for all rows.
ghost use Rattle.std.specs.Prelude.{◌≡◌, ◌+◌, map, IfOk, MatchResult};
ghost use Rattle.elimination.specs.Polynomial.{Distinct};
ghost use Rattle.pieces.specs.Given.{IsDrive, OneLength, RowsOf, drives};
ghost use Rattle.pieces.specs.Refusals.{NotWorked};
ghost use Rattle.std.specs.List.{flat_map, All};

use crate::errors::PieceError;
use crate::need::Need;
use crate::rows::Rows;
use crate::working::Piece;
use elimination::interpolate;
use std::alloc::{AllocError, Global};

// The rows that have these pieces as their values.
pub fn solve(heap: Global, need: Need, pieces: &[Piece]) -> Result<Rows, PieceError>
    requires { OneLength need.count pieces.now }
    ensures { MatchResult result (λ rows. (rows.need.count ≡ need.count) × Distinct (drives pieces.now) × RowsOf need.count pieces.now rows.flat.items)
        (NotWorked need.count pieces.now) }
{
    let points = points_of(heap, pieces)?;
    let values = values_of(heap, pieces)?;
    let flat = interpolate(heap, &points, &values)?;
    Ok(Rows { need, flat })
}

// The points of the pieces' drives.
fn points_of(heap: Global, pieces: &[Piece]) -> Result<Vec<u8>, AllocError>
    requires { All (λ p. IsDrive p.drive) pieces.now }
    ensures { IfOk result (λ v. v.items ≡ map (λ p. p.drive + 1) pieces.now) }
{
    pieces.iter().map(|piece| piece.drive + 1).collect(heap)
}

// The bytes of the pieces one after the other.
fn values_of(heap: Global, pieces: &[Piece]) -> Result<Vec<u8>, AllocError>
    ensures { IfOk result (λ v. v.items ≡ flat_map (λ p. p.bytes.items) pieces.now) }
{
    let mut values = Vec::new(heap);
    for piece in pieces {
        values.extend_from_slice(&piece.bytes)?;
    }
    Ok(values)
}
