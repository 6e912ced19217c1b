// Runs pieces through making, losing and working out, and prints a line for each group.
#![tactic(auto)]

use pieces::{Piece, PieceError, make, remake, work_out};
use std::alloc::Global;
use std::io;

// Bytes that look like chance, the same in each run.
fn sample(heap: Global, length: usize) -> Result<Vec<u8>, PieceError> {
    let mut state = 12345u32;
    let mut bytes = Vec::with_capacity(heap, length)?;
    for _ in 0..length {
        state = state.wrapping_mul(1_664_525).wrapping_add(1_013_904_223);
        bytes.push((state >> 16 & 0xff) as u8)?;
    }
    Ok(bytes)
}

// The pieces of an object on the first `count` drives.
fn pieces_of(heap: Global, need: u8, count: u8, object: &[u8]) -> Result<Vec<Piece>, PieceError> {
    let mut pieces = Vec::new(heap);
    for drive in 0..count {
        let bytes = make(heap, need, drive, object)?;
        pieces.push(Piece { drive, bytes })?;
    }
    Ok(pieces)
}

// A piece of a drive with these bytes.
fn found(heap: Global, drive: u8, bytes: &[u8]) -> Result<Piece, PieceError> {
    let bytes = Vec::from_slice(heap, bytes)?;
    Ok(Piece { drive, bytes })
}

// Copies of the pieces of those drives that are wanted.
fn chosen<F: Fn(u8) -> bool>(
    heap: Global,
    pieces: &[Piece],
    wanted: F,
) -> Result<Vec<Piece>, PieceError>
    requires { F.IsAlwaysCallable wanted }
{
    let mut kept = Vec::new(heap);
    for piece in pieces {
        if wanted(piece.drive) {
            kept.push(found(heap, piece.drive, &piece.bytes)?)?;
        }
    }
    Ok(kept)
}

// Loses the piece of one drive more than are needed, works the object out of the others, and makes the lost piece anew.
fn comes_back(heap: Global, need: u8, length: usize) -> Result<bool, PieceError> {
    let object = sample(heap, length)?;
    let lost = (length % (usize::from(need) + 1)) as u8;
    let pieces = pieces_of(heap, need, need.saturating_add(1), &object)?;
    let others = chosen(heap, &pieces, |drive| drive != lost)?;
    let again = work_out(heap, need, &others)?;
    let anew = remake(heap, need, lost, &others)?;
    let whole = again.as_slice() == object.as_slice();
    let same = pieces
        .get(usize::from(lost))
        .is_some_and(|piece| anew.as_slice() == piece.bytes.as_slice());
    Ok(whole && same)
}

fn held(runs: &[bool]) -> usize {
    runs.iter().filter(|run| **run).count()
}

// Of how many lengths the object comes back.
fn lengths(heap: Global, need: u8) -> Result<usize, PieceError> {
    let row = usize::from(need);
    let mut runs = Vec::new(heap);
    for length in [
        0,
        1,
        row.saturating_sub(4),
        row.saturating_sub(1),
        row,
        65_535,
        65_536,
    ] {
        runs.push(comes_back(heap, need, length)?)?;
    }
    Ok(held(&runs))
}

// In how many of the ways to choose 10 of 14 drives the object comes back.
fn ways(heap: Global) -> Result<usize, PieceError> {
    let object = sample(heap, 100)?;
    let pieces = pieces_of(heap, 10, 14, &object)?;
    let mut runs = Vec::new(heap);
    for mask in (0..0x4000u32).filter(|mask| mask.count_ones() == 10) {
        let kept = chosen(heap, &pieces, |drive| mask >> (drive & 31) & 1 == 1)?;
        runs.push(work_out(heap, 10, &kept)?.as_slice() == object.as_slice())?;
    }
    Ok(held(&runs))
}

// Is what comes of these pieces of these drives, where `need` give the object back, that refusal.
fn is_refused(
    heap: Global,
    need: u8,
    given: &[(u8, &[u8])],
    refusal: PieceError,
) -> Result<bool, PieceError> {
    let mut pieces = Vec::new(heap);
    for (drive, bytes) in given {
        pieces.push(found(heap, *drive, bytes)?)?;
    }
    Ok(work_out(heap, need, &pieces).err() == Some(refusal))
}

// How many of the refusals of pieces of themselves come.
fn bad_pieces(heap: Global) -> Result<usize, PieceError> {
    Ok(held(&[
        is_refused(heap, 2, &[(0, b"five")], PieceError::TooFewPieces)?,
        is_refused(
            heap,
            1,
            &[(0, b"five"), (1, b"five")],
            PieceError::TooManyPieces,
        )?,
        is_refused(heap, 1, &[(32, b"five")], PieceError::DriveOutOfRange)?,
        is_refused(
            heap,
            2,
            &[(0, b"five"), (1, b"seven")],
            PieceError::DifferentLengths,
        )?,
        is_refused(
            heap,
            2,
            &[(0, b"five"), (0, b"five")],
            PieceError::SameDrive,
        )?,
    ]))
}

// How many of the refusals of the rows behind pieces come. The rows 0, 0; 0, 1; 7, 9 have the values 0, 1, 14 and 0, 2, 21 at the first two drives.
fn bad_rows(heap: Global) -> Result<usize, PieceError> {
    Ok(held(&[
        is_refused(heap, 1, &[(0, &[0, 1, 0, 1])], PieceError::LengthTooLarge)?,
        is_refused(heap, 1, &[(0, &[0, 0, 0, 1])], PieceError::WrongRowCount)?,
        is_refused(
            heap,
            2,
            &[(0, &[0, 1, 14]), (1, &[0, 2, 21])],
            PieceError::NotZeroFilled,
        )?,
    ]))
}

// How many of the refusals of making come.
fn bad_making(heap: Global) -> Result<usize, PieceError> {
    let long = sample(heap, 65_537)?;
    Ok(held(&[
        make(heap, 32, 0, b"five").err() == Some(PieceError::NeedOutOfRange),
        make(heap, 31, 32, b"five").err() == Some(PieceError::DriveOutOfRange),
        make(heap, 2, 0, &long).err() == Some(PieceError::ObjectTooLong),
    ]))
}

// How many of the pieces of the object 5, 7, where 2 give it back, are what they should be.
fn worked_case(heap: Global) -> Result<usize, PieceError> {
    let wanted = [[0, 2, 2], [0, 4, 11], [0, 6, 12]];
    let pieces = pieces_of(heap, 2, 3, &[5, 7])?;
    Ok(
        pieces
            .iter()
            .zip(&wanted)
            .filter(|(piece, bytes)| piece.bytes.as_slice() == bytes.as_slice())
            .count(),
    )
}

// A group's line: how many of its runs did what they should.
fn tell(
    rt: &HostRuntime,
    group: &str,
    good: Result<usize, PieceError>,
    of: usize,
) -> io::Result<()> {
    match good {
        Ok(good) => println!(rt; "{group}: {good} of {of}"),
        Err(e) => println!(rt; "{group}: {e:?}"),
    }
}

fn main(rt: HostRuntime) -> io::Result<()> {
    let heap = rt.alloc();
    tell(&rt, "lengths at need 1", lengths(heap, 1), 7)?;
    tell(&rt, "lengths at need 2", lengths(heap, 2), 7)?;
    tell(&rt, "lengths at need 10", lengths(heap, 10), 7)?;
    tell(&rt, "lengths at need 31", lengths(heap, 31), 7)?;
    tell(&rt, "ways to choose 10 of 14 drives", ways(heap), 1001)?;
    tell(&rt, "refusals of pieces", bad_pieces(heap), 5)?;
    tell(&rt, "refusals of rows", bad_rows(heap), 3)?;
    tell(&rt, "refusals of making", bad_making(heap), 3)?;
    tell(&rt, "pieces of 5, 7", worked_case(heap), 3)
}
