// A piece as it was read of a slot, in bytes of its own.
ghost use Rattle.std.specs.Prelude.{IfOk};
ghost use Rattle.slots.specs.Slot.{read_slot};
ghost use Rattle.archive.specs.Entries.{Lies};

use keeper::object::Entry;
use slots::Owner;
use std::alloc::{AllocError, Global};

// The piece that a slot's bytes hold for an object and a drive.
pub fn entry_at(
    heap: Global,
    slot: &[u8],
    owner: Owner,
    place: u8,
) -> Result<Option<Entry>, AllocError>
    ensures { IfOk result (λ found. Lies owner.drive place found (read_slot owner.object owner.drive slot.now)) }
{
    let Some(held) = slots::read(slot, owner) else {
        return Ok(None);
    };
    Ok(Some(Entry {
        drive: owner.drive,
        place,
        version: held.version,
        piece: Vec::from_slice(heap, held.piece)?,
    }))
}

#[cfg(test)]
mod tests {
    use super::*;
    use std::test::Fail;

    // The contract says what is found; this, that there is memory for it.
    #[test]
    fn a_piece_that_was_written_is_found(rt: HostRuntime) -> Result<(), Fail> {
        let heap = rt.alloc();
        let owner = Owner {
            object: 3,
            drive: 1,
        };
        let record = slots::encode(heap, owner, 9, &[1, 2])?.ok_or("a short piece")?;
        let found = entry_at(heap, record.as_slice(), owner, 2)?.ok_or("a record")?;
        assert!(rt; found.drive == 1 && found.place == 2 && found.version == 9);
        assert!(rt; found.piece.as_slice() == [1, 2].as_slice());
        Ok(())
    }
}
