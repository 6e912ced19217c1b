// What is to be seen of pieces before anything is worked out of them.
ghost use Rattle.std.specs.Prelude.{MatchResult};
ghost use Rattle.pieces.specs.Given.{OneLength};
ghost use Rattle.pieces.specs.Refusals.{NotWorked};

use crate::errors::PieceError;
use crate::making::LAST;
use crate::need::Need;
use crate::working::Piece;

// Are the pieces as many as are needed, of drives that may be, and of one length.
pub fn examine(need: Need, pieces: &[Piece]) -> Result<(), PieceError>
    ensures { MatchResult result (λ _. OneLength need.count pieces.now) (NotWorked need.count pieces.now) }
{
    if pieces.len() < need.count {
        return Err(PieceError::TooFewPieces);
    }
    if pieces.len() > need.count {
        return Err(PieceError::TooManyPieces);
    }
    if pieces.iter().any(|piece| piece.drive > LAST) {
        return Err(PieceError::DriveOutOfRange);
    }
    let width = pieces[0].bytes.len();
    if pieces.iter().any(|piece| piece.bytes.len() != width) {
        return Err(PieceError::DifferentLengths);
    }
    Ok(())
}
