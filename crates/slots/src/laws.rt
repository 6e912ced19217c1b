// The laws of slots, as contracts: without their proofs the crate isn't proved.
ghost use Rattle.slots.specs.Laws.{Slots, TornTwice};

// What was written is read, what was cleared isn't, only the record's own bytes matter, and a record is of one object and drive.
pub fn slots_stand() -> u8
    ensures { Slots }
{
    0
}

// A torn slot can be completed by a later torn writing: why no more is trusted of torn slots than `Torn` says.
pub fn torn_twice() -> u8
    ensures { TornTwice }
{
    0
}
