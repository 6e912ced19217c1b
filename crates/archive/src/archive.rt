// The keeper's steps on drives: each reads what it looks at, no more, and does what is to be done in its order.
use crate::disks::Disks;
use crate::fault::{Failure, Fault};
use keeper::object::{Answer, Entry, Step};
use keeper::readings::is_holder;
use slots::Owner;
use std::alloc::Global;
use table::Keeper;

#[derive(Drop)]
pub struct Archive<D> {
    pub heap: Global,
    pub keeper: Keeper,
    pub disks: D,
}

// What is known of an object once a step on it fails half-way.
#[derive(Clone, Copy, PartialEq, Eq, Debug)]
enum AfterFault {
    // Nothing for sure: the step changes its state, or the file.
    Unsure,
    // What was known before: the step leaves both.
    AsBefore,
}

impl<D: Disks> Archive<D> {
    // Begins to write an object that counts a version.
    pub fn begin(&mut self, object: u64, bytes: Vec<u8>) -> Result<Answer, Failure> {
        let step = self.keeper.begin(self.heap, object, bytes);
        self.complete(object, step, AfterFault::Unsure)
    }

    // Writes a piece of the new version to a drive that is in.
    pub fn write(&mut self, object: u64, drive: u64) -> Result<Answer, Failure> {
        self.step_on_drive(object, drive, Keeper::write)
    }

    // Finishes a writing.
    pub fn finish(&mut self, object: u64) -> Result<Answer, Failure> {
        self.step_on_all(object, Keeper::finish)
    }

    // Reads an object that counts a version.
    pub fn read(&mut self, object: u64) -> Result<Answer, Failure> {
        let mut entries = Vec::new(self.heap);
        self.add_needed(object, None, &mut entries)?;
        let step = self.keeper.read(self.heap, object, &entries);
        self.complete(object, step, AfterFault::AsBefore)
    }

    // Takes away, on a drive that is in, the versions other than the one that counts.
    pub fn tidy(&mut self, object: u64, drive: u64) -> Result<Answer, Failure> {
        self.step_on_drive(object, drive, Keeper::tidy)
    }

    // Takes away, on a drive that is in, an object's versions below its bar.
    pub fn sweep_object(&mut self, object: u64, drive: u64) -> Result<Answer, Failure> {
        self.step_on_drive(object, drive, Keeper::sweep)
    }

    // Makes the piece of the version that counts, where a drive that is in lacks it.
    pub fn mend(&mut self, object: u64, drive: u64) -> Result<Answer, Failure> {
        let mut entries = self.on_drive(object, drive)?;
        if let Ok(number) = u8::try_from(drive)
            && !self.has_counted(object, number, &entries)
        {
            self.add_needed(object, Some(number), &mut entries)?;
        }
        let step = self.keeper.mend(self.heap, object, drive, &entries);
        self.complete(object, step, AfterFault::AsBefore)
    }

    // Gives up an unfinished writing.
    pub fn give_up(&mut self, object: u64) -> Result<Answer, Failure> {
        let step = self.keeper.give_up(self.heap, object);
        self.complete(object, step, AfterFault::Unsure)
    }

    // Settles an object that is unsure.
    pub fn settle(&mut self, object: u64) -> Result<Answer, Failure> {
        self.step_on_all(object, Keeper::settle)
    }

    // A step that looks at the pieces on a drive, and leaves the object's state.
    fn step_on_drive<F: FnOnce(&mut Keeper, Global, u64, u64, &[Entry]) -> Step>(
        &mut self,
        object: u64,
        drive: u64,
        step: F,
    ) -> Result<Answer, Failure>
        requires { F.IsAlwaysCallable step }
    {
        let entries = self.on_drive(object, drive)?;
        let step = step(&mut self.keeper, self.heap, object, drive, &entries);
        self.complete(object, step, AfterFault::AsBefore)
    }

    // A step that looks at the pieces on all drives that are in, and changes the object's state.
    fn step_on_all<F: FnOnce(&mut Keeper, Global, u64, &[Entry]) -> Step>(
        &mut self,
        object: u64,
        step: F,
    ) -> Result<Answer, Failure>
        requires { F.IsAlwaysCallable step }
    {
        let entries = self.on_all(object)?;
        let step = step(&mut self.keeper, self.heap, object, &entries);
        self.complete(object, step, AfterFault::Unsure)
    }

    // The pieces of an object on a drive; none where there is no such object or the drive isn't in.
    fn on_drive(&mut self, object: u64, drive: u64) -> Result<Vec<Entry>, Fault> {
        let mut entries = Vec::new(self.heap);
        if let (Ok(object), Some(drive)) = (u8::try_from(object), self.keeper.drive_of(drive))
            && self.keeper.drives().is_in(drive)
        {
            let owner = Owner { object, drive };
            self.disks.read_object(self.heap, owner, &mut entries)?;
        }
        Ok(entries)
    }

    // The pieces of an object on all drives that are in.
    pub fn on_all(&mut self, object: u64) -> Result<Vec<Entry>, Fault> {
        let mut entries = Vec::new(self.heap);
        let Ok(object) = u8::try_from(object) else {
            return Ok(entries);
        };
        let drives = self.keeper.drives();
        for drive in 0..drives.count() {
            if drives.is_in(drive) {
                let owner = Owner { object, drive };
                self.disks.read_object(self.heap, owner, &mut entries)?;
            }
        }
        Ok(entries)
    }

    // Whether these pieces have, on a drive, the version that counts.
    fn has_counted(&self, object: u64, drive: u8, entries: &[Entry]) -> bool {
        self.counted(object)
            .is_some_and(|version| is_holder(entries, drive, version))
    }

    // The version that an object counts; none where that isn't sure, or there is no such object.
    fn counted(&self, object: u64) -> Option<u64> {
        self.keeper.counted(u8::try_from(object).ok()?)
    }

    // Adds the pieces on the lowest drives that are in, but for one, until as many as are needed have the version that counts.
    fn add_needed(
        &mut self,
        object: u64,
        but: Option<u8>,
        entries: &mut Vec<Entry>,
    ) -> Result<(), Fault> {
        let Ok(object) = u8::try_from(object) else {
            return Ok(());
        };
        match self.keeper.counted(object) {
            None | Some(0) => Ok(()),
            Some(version) => self.add_holders(object, version, but, entries),
        }
    }

    fn add_holders(
        &mut self,
        object: u8,
        version: u64,
        but: Option<u8>,
        entries: &mut Vec<Entry>,
    ) -> Result<(), Fault> {
        let drives = self.keeper.drives();
        let mut wanted = self.keeper.need();
        for drive in 0..drives.count() {
            if wanted > 0 && but != Some(drive) && drives.is_in(drive) {
                let owner = Owner { object, drive };
                self.disks.read_object(self.heap, owner, entries)?;
                if is_holder(entries, drive, version) {
                    wanted -= 1;
                }
            }
        }
        Ok(())
    }

    // Does what a step asks for, and hands the object's state back.
    fn complete(&mut self, object: u64, step: Step, after: AfterFault) -> Result<Answer, Failure> {
        let Step {
            answer,
            effects,
            object: state,
        } = step;
        let Ok(number) = u8::try_from(object) else {
            return Ok(answer?);
        };
        let done = self.perform_all(number, &effects);
        if done.is_ok() || after == AfterFault::AsBefore {
            self.keeper.accept(object, state);
        }
        done?;
        Ok(answer?)
    }
}
