// What the keeper's steps come to over whole runs, through stops, lost drives and drives that come back. The theorems stand on the contracts of small functions.
#![tactic(auto)]

ghost use Rattle.recovery.specs.Promise.{Safety, Onward, TakesHighest};
ghost use Rattle.recovery.specs.Progress.{GoesOn};
ghost use Rattle.recovery.specs.Store.{StoreSafety};
ghost use Rattle.recovery.specs.Example.{Example};
ghost use Rattle.recovery.specs.Wrong.{WrongTurns};
ghost use Rattle.recovery.specs.Real.{Real};
ghost use Rattle.recovery.specs.Needed.{FewSuffice};

// After every run the version last finished can be worked out, what a read answers is its content, and nothing is worked out of pieces of two versions.
pub fn safety_stands() -> u8
    ensures { Safety }
{
    0
}

// Whatever happens next: nothing older comes back, no version is used twice, and the keeper's own steps make no drive weak.
pub fn sequel_stands() -> u8
    ensures { Onward }
{
    0
}

// Settling takes the highest version that isn't below the bar and works out.
pub fn highest_stands() -> u8
    ensures { TakesHighest }
{
    0
}

// It can always go on: an unsure object can be settled, every object brought to count, and every lacking piece made anew, by the keeper's own steps.
pub fn progress_stands() -> u8
    ensures { GoesOn }
{
    0
}

// All of it for every object of a store, whose objects share numbers, the file and the drives.
pub fn store_stands() -> u8
    ensures { StoreSafety }
{
    0
}

// What the promises ask can be met: a run with every kind of event, over a codec that keeps its laws, and the read at its end.
pub fn example_stands() -> u8
    ensures { Example }
{
    0
}

// The codec and the slots that the code works by keep the laws, so all of it holds of the code's own steps.
pub fn real_stands() -> u8
    ensures { Real }
{
    0
}

// What would go wrong otherwise: runs that break a keeper that settles under the number found, takes a version below the bar, drops the bar's pieces, or
// comes up with the number last used.
pub fn wrong_turns_stand() -> u8
    ensures { WrongTurns }
{
    0
}

// A step comes out the same over the few pieces that it has to read.
pub fn few_suffice() -> u8
    ensures { FewSuffice }
{
    0
}
