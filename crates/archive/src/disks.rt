// What the keeper's effects are done on: drives with four places for each object, and the keeper's own file.
ghost use Rattle.std.specs.Prelude.{◌≡◌, true, is_ok};
ghost use Rattle.archive.specs.Deeds.{Deed, wrote, cleared, replaced};

use crate::fault::Fault;
use keeper::object::Entry;
use slots::Owner;
use std::alloc::Global;

// Each call is done, and lasts, once it answers Ok; where it answers a fault, the place, or the file, may be anything that a stop leaves.
pub trait Disks {
    // What a deed makes of the disks. An impl that can't say it, as nothing is known of what a file holds, keeps the default, which says nothing.
    ghost does: { Deed → Self → Self → Type 0 } = { λ _ _ _. Unit {0} };

    // Reads what a drive has of an object: appends the pieces at its places, from the lowest on.
    fn read_object(
        &mut self,
        heap: Global,
        owner: Owner,
        into: &mut Vec<Entry>,
    ) -> Result<(), Fault>;

    // Writes these bytes to the front of a place.
    fn write(&mut self, owner: Owner, place: u8, bytes: &[u8]) -> Result<(), Fault>
        ensures { is_ok result ≡ true → does (wrote owner.object owner.drive place bytes.now) self.old self.new };

    // Writes zeros over the whole record in a place.
    fn clear(&mut self, owner: Owner, place: u8) -> Result<(), Fault>
        ensures { is_ok result ≡ true → does (cleared owner.object owner.drive place) self.old self.new };

    // Replaces the keeper's own file by these bytes: until it is done the old one stands.
    fn replace_file(&mut self, bytes: &[u8]) -> Result<(), Fault>
        ensures { is_ok result ≡ true → does (replaced bytes.now) self.old self.new };
}
