// The keeper's steps on an object of the table. Each takes the object's state out of the table and hands it back in its answer. What they share is four lines; a
// function that takes the step as a parameter would promise by the step's own promise, of a view and a state that it has to describe, and would be longer.
ghost use Rattle.std.specs.Prelude.{◌≡◌, ◌<◌, ◌≤◌, length, MatchOption};
ghost use Rattle.drives.specs.Place.{objects};
ghost use Rattle.keeper.specs.Real.{GivesBy};
ghost use Rattle.keeper.specs.Shown.{readings_of, Gives};
ghost use Rattle.keeper.specs.Steps.{begin as begin_of, write as write_of, finish as finish_of, read as read_of, tidy as tidy_of, sweep as sweep_of, mend as mend_of, give_up, settle as settle_of};
ghost use Rattle.table.specs.Table.{flags_of, state_at, setup_in, on_object, Lent};

use crate::table::Keeper;
use drives::OBJECTS;
use keeper::codec::Codec;
use keeper::object::{Entry, Step};
use keeper::refusal::Refusal;
use keeper::view::View;
use keeper::{placing, settling, steps};
use std::alloc::Global;

// The object of a number; none where there is no such object.
fn object_of(object: u64) -> Option<u8>
    ensures { MatchOption result (objects ≤ object) (λ o. (object < objects) × (o ≡ object)) }
{
    (object < OBJECTS as u64).then(|| object as u8)
}

impl Keeper {
    // How an object's pieces are made and worked out.
    fn codec(&self, object: u8) -> Codec
        ensures { (result.object ≡ object) × (result.need ≡ self.now.need) }
    {
        Codec {
            object,
            need: self.need,
        }
    }

    // What a step looks at.
    fn view<'a>(&'a self, heap: Global, entries: &'a [Entry]) -> View<'a>
        ensures present { result.present.now ≡ flags_of self.now.drives }
        ensures few { length result.present.now ≤ 32 }
        ensures entries { result.entries.now ≡ entries.now }
    {
        View {
            heap,
            present: self.drives.flags(),
            entries,
        }
    }

    // Begins to write an object that counts a version.
    pub fn begin(&mut self, heap: Global, object: u64, bytes: Vec<u8>) -> Step
        ensures step { Gives result (state_at self.old object) (on_object object (state_at self.old object) (λ s. begin_of s bytes.items)) }
        ensures after { Lent self.old self.new object }
    {
        let state = self.lend(object);
        if object_of(object).is_none() {
            return steps::refuse(heap, state, Refusal::NoSuch);
        }
        steps::begin(heap, state, bytes)
    }

    // Writes a piece of the new version to a drive that is in. `entries` are the drive's.
    pub fn write(&mut self, heap: Global, object: u64, drive: u64, entries: &[Entry]) -> Step
        ensures step { GivesBy self.old.need object result (state_at self.old object) (λ C. on_object object (state_at self.old object) (λ s. write_of C (setup_in self.old) s drive (readings_of entries.now))) }
        ensures after { Lent self.old self.new object }
    {
        let state = self.lend(object);
        let (Some(object), Some(drive)) = (object_of(object), self.drive_of(drive)) else {
            return steps::refuse(heap, state, Refusal::NoSuch);
        };
        placing::write(self.view(heap, entries), self.codec(object), state, drive)
    }

    // Finishes a writing. `entries` are those of all drives that are in.
    pub fn finish(&mut self, heap: Global, object: u64, entries: &[Entry]) -> Step
        ensures step { Gives result (state_at self.old object) (on_object object (state_at self.old object) (λ s. finish_of (setup_in self.old) s (readings_of entries.now))) }
        ensures after { Lent self.old self.new object }
    {
        let state = self.lend(object);
        if object_of(object).is_none() {
            return steps::refuse(heap, state, Refusal::NoSuch);
        }
        steps::finish(self.view(heap, entries), self.need, state)
    }

    // Reads an object that counts a version. Enough pieces of that version are enough entries.
    pub fn read(&mut self, heap: Global, object: u64, entries: &[Entry]) -> Step
        ensures step { GivesBy self.old.need object result (state_at self.old object) (λ C. on_object object (state_at self.old object) (λ s. read_of C (setup_in self.old) s (readings_of entries.now))) }
        ensures after { Lent self.old self.new object }
    {
        let state = self.lend(object);
        let Some(object) = object_of(object) else {
            return steps::refuse(heap, state, Refusal::NoSuch);
        };
        placing::read(self.view(heap, entries), self.codec(object), state)
    }

    // Tidies an object that counts a version on a drive that is in. `entries` are the drive's.
    pub fn tidy(&mut self, heap: Global, object: u64, drive: u64, entries: &[Entry]) -> Step
        ensures step { Gives result (state_at self.old object) (on_object object (state_at self.old object) (λ s. tidy_of (setup_in self.old) s drive (readings_of entries.now))) }
        ensures after { Lent self.old self.new object }
    {
        let state = self.lend(object);
        let (Some(_), Some(drive)) = (object_of(object), self.drive_of(drive)) else {
            return steps::refuse(heap, state, Refusal::NoSuch);
        };
        steps::tidy(self.view(heap, entries), state, drive)
    }

    // Sweeps an object on a drive that is in, at any time. `entries` are the drive's.
    pub fn sweep(&mut self, heap: Global, object: u64, drive: u64, entries: &[Entry]) -> Step
        ensures step { Gives result (state_at self.old object) (on_object object (state_at self.old object) (λ s. sweep_of (setup_in self.old) s drive (readings_of entries.now))) }
        ensures after { Lent self.old self.new object }
    {
        let state = self.lend(object);
        let (Some(_), Some(drive)) = (object_of(object), self.drive_of(drive)) else {
            return steps::refuse(heap, state, Refusal::NoSuch);
        };
        steps::sweep(self.view(heap, entries), state, drive)
    }

    // Mends an object that counts a version on a drive that is in. `entries` are the drive's, and enough others of that version.
    pub fn mend(&mut self, heap: Global, object: u64, drive: u64, entries: &[Entry]) -> Step
        ensures step { GivesBy self.old.need object result (state_at self.old object) (λ C. on_object object (state_at self.old object) (λ s. mend_of C (setup_in self.old) s drive (readings_of entries.now))) }
        ensures after { Lent self.old self.new object }
    {
        let state = self.lend(object);
        let (Some(object), Some(drive)) = (object_of(object), self.drive_of(drive)) else {
            return steps::refuse(heap, state, Refusal::NoSuch);
        };
        placing::mend(self.view(heap, entries), self.codec(object), state, drive)
    }

    // Gives up an unfinished writing.
    pub fn give_up(&mut self, heap: Global, object: u64) -> Step
        ensures step { Gives result (state_at self.old object) (on_object object (state_at self.old object) (λ s. give_up s)) }
        ensures after { Lent self.old self.new object }
    {
        let state = self.lend(object);
        if object_of(object).is_none() {
            return steps::refuse(heap, state, Refusal::NoSuch);
        }
        steps::give_up(heap, state)
    }

    // Settles an object that is unsure. `entries` are those of all drives that are in.
    pub fn settle(&mut self, heap: Global, object: u64, entries: &[Entry]) -> Step
        ensures step { GivesBy self.old.need object result (state_at self.old object) (λ C. on_object object (state_at self.old object) (λ s. settle_of C (setup_in self.old) s (readings_of entries.now))) }
        ensures after { Lent self.old self.new object }
    {
        let state = self.lend(object);
        let Some(object) = object_of(object) else {
            return steps::refuse(heap, state, Refusal::NoSuch);
        };
        settling::settle(self.view(heap, entries), self.codec(object), state)
    }
}
