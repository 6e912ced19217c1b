// Making the record of a piece, and working a version's content out of its pieces.
ghost use Rattle.std.specs.Prelude.{◌≡◌, ◌<◌, ◌≤◌, map, IfOk};
ghost use Rattle.pieces.specs.Rows.{piece_of};
ghost use Rattle.slots.specs.Layout.{record_of};
ghost use Rattle.keeper.specs.Readings.{counts_as, pieces_of, given};
ghost use Rattle.keeper.specs.Real.{Worked, piece_given};
ghost use Rattle.keeper.specs.Shown.{content_of, reading_of, readings_of};

use crate::object::Entry;
use crate::readings::is_copy;
use crate::writing::Content;
use pieces::{Piece, PieceError};
use slots::Owner;
use std::alloc::{AllocError, Global};

// How an object's pieces are made, written and worked out: which object it is, and how many pieces give it back. `pieces` takes a plain number and refuses; the
// keeper has one that is never refused.
#[derive(Clone, Copy)]
pub struct Codec {
    pub object: u8,
    pub need: u8,
    ghost some: { 0 < need },
    ghost few: { need ≤ 31 },
}

impl Codec {
    // The record of the piece that a drive has of this content.
    pub(crate) fn record(
        self,
        heap: Global,
        drive: u8,
        version: u64,
        content: &Content,
    ) -> Result<Vec<u8>, AllocError>
        requires { drive ≤ 31 }
        ensures { IfOk result (λ v. v.items ≡ record_of self.object drive version (piece_of self.need drive (content_of content.now))) }
    {
        // Nothing but want of memory is left for it to refuse.
        let Ok(piece) = pieces::make(heap, self.need, drive, content.bytes.as_slice()) else {
            return Err(AllocError);
        };
        let owner = Owner {
            object: self.object,
            drive,
        };
        let Some(record) = slots::encode(heap, owner, version, piece.as_slice())? else {
            unreachable()
        };
        Ok(record)
    }

    // The content of a version, worked out of as many of its pieces as are needed; none where there are fewer, or where they don't work out.
    pub(crate) fn content(
        self,
        heap: Global,
        entries: &[Entry],
        version: u64,
    ) -> Result<Option<Content>, AllocError>
        ensures { IfOk result (λ v. Worked self.need version (readings_of entries.now) v) }
    {
        let need = usize::from(self.need);
        let mut chosen = pieces_of(heap, entries, version)?;
        if chosen.len() < need {
            return Ok(None);
        }
        chosen.truncate(need);
        match pieces::work_out(heap, self.need, chosen.as_slice()) {
            Ok(bytes) => Ok(Some(Content { bytes })),
            // Two matches: of a pattern within a pattern the proof doesn't learn which errors are left.
            Err(why) => match why {
                PieceError::NoMemory => Err(AllocError),
                _ => Ok(None),
            },
        }
    }
}

fn counts_as(entries: &[Entry], version: u64, entry: &Entry) -> bool
    ensures { result ≡ counts_as (readings_of entries.now) version (reading_of entry.now) }
{
    entry.version == version && !is_copy(entries, entry)
}

// The pieces of a version, one from each drive that has it.
fn pieces_of(heap: Global, entries: &[Entry], version: u64) -> Result<Vec<Piece>, AllocError>
    ensures { IfOk result (λ v. map piece_given v.items ≡ map given (pieces_of version (readings_of entries.now))) }
{
    let mut chosen = Vec::new(heap);
    for entry in entries {
        if counts_as(entries, version, entry) {
            chosen.push(Piece {
                drive: entry.drive,
                bytes: Vec::from_slice(heap, entry.piece.as_slice())?,
            })?;
        }
    }
    Ok(chosen)
}
