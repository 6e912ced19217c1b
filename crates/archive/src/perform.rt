// Doing what a step asks for.
ghost use Rattle.std.specs.Prelude.{◌≡◌, true, is_ok, slice_set};
ghost use Rattle.table.specs.File.{file_of};
ghost use Rattle.keeper.specs.Shown.{act_of};
ghost use Rattle.table.specs.Table.{bars_of};
ghost use Rattle.archive.specs.Deeds.{replaced, deed_of, deeds_of, Leads};

use crate::archive::Archive;
use crate::disks::Disks;
use crate::fault::Fault;
use keeper::object::Effect;
use slots::Owner;
use std::alloc::Global;
use table::Keeper;

// The keeper's file with this number, and with this bar for the object, takes the place of the one before.
fn replace_file<D: Disks>(
    heap: Global,
    keeper: &Keeper,
    disks: &mut D,
    object: u8,
    number: u64,
    bar: u64,
) -> Result<(), Fault>
    ensures { is_ok result ≡ true → D.Disks.does (replaced (file_of number (slice_set (bars_of keeper.now) object bar))) disks.old disks.new }
{
    let bytes = keeper.file(heap, object, number, bar)?;
    disks.replace_file(&bytes)
}

fn perform_one<D: Disks>(
    heap: Global,
    keeper: &Keeper,
    disks: &mut D,
    object: u8,
    effect: &Effect,
) -> Result<(), Fault>
    ensures { is_ok result ≡ true → D.Disks.does (deed_of (bars_of keeper.now) object (act_of effect.now)) disks.old disks.new }
{
    match effect {
        Effect::Write {
            drive,
            place,
            bytes,
        } => {
            let owner = Owner {
                object,
                drive: *drive,
            };
            disks.write(owner, *place, bytes)
        }
        Effect::Clear { drive, place } => {
            let owner = Owner {
                object,
                drive: *drive,
            };
            disks.clear(owner, *place)
        }
        Effect::Replace { number, bar } => replace_file(heap, keeper, disks, object, *number, *bar),
    }
}

// Does the effects one by one, each once the one before is done, up to the first that fails.
pub fn perform_all<D: Disks>(
    heap: Global,
    keeper: &Keeper,
    disks: &mut D,
    object: u8,
    effects: &[Effect],
) -> Result<(), Fault>
    ensures { is_ok result ≡ true → Leads D.Disks.does (deeds_of (bars_of keeper.now) object effects.now) disks.old disks.new }
{
    for effect in effects {
        perform_one(heap, keeper, disks, object, effect)?;
    }
    Ok(())
}

impl<D: Disks> Archive<D> {
    // The same on the archive's own disks, with its own heap; the keeper stays as it is.
    pub fn perform_all(&mut self, object: u8, effects: &[Effect]) -> Result<(), Fault>
        ensures done { is_ok result ≡ true → Leads D.Disks.does (deeds_of (bars_of self.old.keeper) object effects.now) self.old.disks self.new.disks }
        ensures keeper { self.new.keeper ≡ self.old.keeper }
    {
        perform_all(self.heap, &self.keeper, &mut self.disks, object, effects)
    }
}
