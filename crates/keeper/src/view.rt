// What a step looks at.
ghost use Rattle.std.specs.Prelude.{◌≡◌, false, true, length, MatchResult, nat_le, slice_index_or};
ghost use Rattle.keeper.specs.declared.refusal.Refusal.TheVariants.{NoSuch, DriveOut};

use crate::object::Entry;
use crate::refusal::Refusal;
use std::alloc::Global;

// Which drives are in, by number, and the pieces of the object that were read on them. How many drives there may be is asked by the steps that need it (write,
// mend, finish) and is no part of the type, since the other steps ask nothing.
#[derive(Clone, Copy)]
pub struct View<'a> {
    pub heap: Global,
    pub present: &'a [bool],
    pub entries: &'a [Entry],
}

impl View<'_> {
    // Refused where there is no such drive.
    pub(crate) fn check_drive(self, drive: u8) -> Result<(), Refusal>
        ensures { MatchResult result (λ _. nat_le (length self.entry.present.now) drive ≡ false) (λ e. (nat_le (length self.entry.present.now) drive ≡ true) × (e ≡ NoSuch)) }
    {
        if usize::from(drive) < self.present.len() {
            Ok(())
        } else {
            Err(Refusal::NoSuch)
        }
    }

    // Refused where the drive is out.
    pub(crate) fn check_in(self, drive: u8) -> Result<(), Refusal>
        ensures { MatchResult result (λ _. slice_index_or self.entry.present.now drive false ≡ true) (λ e. (slice_index_or self.entry.present.now drive false ≡ false) × (e ≡ DriveOut)) }
    {
        match self.present.get(usize::from(drive)) {
            Some(true) => Ok(()),
            _ => Err(Refusal::DriveOut),
        }
    }
}
