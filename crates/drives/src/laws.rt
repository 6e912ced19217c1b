// The laws of a drive's slots, as contracts: without their proofs the crate isn't proved.
ghost use Rattle.drives.specs.Laws.{Apart, Rereading, Views};

// What is put into a slot stands there, every other slot of the drive is as it was, byte for byte, and the drive is as long as it was.
pub fn slots_apart() -> u8
    ensures { Apart }
{
    0
}

// What was written is read again, what was taken away isn't, and both leave all other readings of the object and all slots of other objects.
pub fn readings_stand() -> u8
    ensures { Rereading }
{
    0
}

// What is written at the place for a version is found, no other version is lost by it, and only four other versions leave no place.
pub fn views_stand() -> u8
    ensures { Views }
{
    0
}
