// Working an object out of pieces of it.
ghost use Rattle.pieces.specs.Outcomes.{MadeWork, OnlyOne, Outcome, Remade, RowsDetermined};

use crate::errors::PieceError;
use crate::examining::examine;
use crate::making::make;
use crate::need::Need;
use crate::solving::solve;
use std::alloc::Global;

// A piece as it was found on a drive.
#[derive(Drop)]
pub struct Piece {
    pub drive: u8,
    pub bytes: Vec<u8>,
}

// The object that has these pieces, of which there are `need`, of different drives. Nothing but want of memory stops it if there is one.
pub fn work_out(heap: Global, need: u8, pieces: &[Piece]) -> Result<Vec<u8>, PieceError>
    ensures { Outcome need pieces.now result }
{
    let need = Need::new(need)?;
    examine(need, pieces)?;
    let rows = solve(heap, need, pieces)?;
    rows.read(heap)
}

// The piece that a drive has of the object that has these pieces.
pub fn remake(heap: Global, need: u8, drive: u8, pieces: &[Piece]) -> Result<Vec<u8>, PieceError>
    ensures { Remade need drive pieces.now result }
{
    let object = work_out(heap, need, pieces)?;
    make(heap, need, drive, &object)
}

// The theorem that pieces that were made give their object back stands on this function's contract.
pub fn made_pieces_work() -> u8
    ensures { MadeWork }
{
    0
}

// The theorem that only one object has the pieces.
pub fn only_one_object() -> u8
    ensures { OnlyOne }
{
    0
}

// The theorem that rows are determined by their values.
pub fn rows_are_determined() -> u8
    ensures { RowsDetermined }
{
    0
}
