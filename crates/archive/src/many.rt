// The lines that are made of several steps: put, sweep and heal.
use crate::archive::Archive;
use crate::disks::Disks;
use crate::fault::Failure;
use keeper::object::Answer;

// How many pieces went, and how many were made.
#[derive(Clone, Copy, PartialEq, Eq, Debug)]
pub struct Healed {
    pub tidied: usize,
    pub mended: usize,
}

// So many pieces as a step made or took away.
fn pieces_in(answer: Answer) -> usize {
    match answer {
        Answer::Removed(pieces) => pieces,
        Answer::Mended(pieces) => usize::from(pieces),
        _ => 0,
    }
}

// The same; none where it was refused.
fn pieces_unless_refused(told: Result<Answer, Failure>) -> Result<usize, Failure> {
    match told {
        Ok(answer) => Ok(pieces_in(answer)),
        Err(Failure::Refused(_)) => Ok(0),
        Err(failure) => Err(failure),
    }
}

impl<D: Disks> Archive<D> {
    // Begins, writes to every drive that is in, and finishes: the first refusal, or finish's answer.
    pub fn put(&mut self, object: u64, bytes: Vec<u8>) -> Result<Answer, Failure> {
        self.begin(object, bytes)?;
        self.write_all(object)?;
        self.finish(object)
    }

    fn write_all(&mut self, object: u64) -> Result<(), Failure> {
        let drives = self.keeper.drives();
        for drive in 0..drives.count() {
            if drives.is_in(drive) {
                self.write(object, u64::from(drive))?;
            }
        }
        Ok(())
    }

    // Takes away, on a drive that is in, every object's versions below its bar.
    pub fn sweep(&mut self, drive: u64) -> Result<Answer, Failure> {
        let mut pieces: usize = 0;
        for object in 0..=u8::MAX {
            let answer = self.sweep_object(u64::from(object), drive)?;
            pieces = pieces.saturating_add(pieces_in(answer));
        }
        Ok(Answer::Removed(pieces))
    }

    // Tidies and mends every object on every drive that is in; refusals are passed over.
    pub fn heal(&mut self) -> Result<Healed, Failure> {
        let mut healed = Healed {
            tidied: 0,
            mended: 0,
        };
        for object in 0..=u8::MAX {
            healed = self.heal_object(u64::from(object), healed)?;
        }
        Ok(healed)
    }

    fn heal_object(&mut self, object: u64, before: Healed) -> Result<Healed, Failure> {
        let drives = self.keeper.drives();
        let mut healed = before;
        for drive in 0..drives.count() {
            if drives.is_in(drive) {
                healed = self.heal_on(object, u64::from(drive), healed)?;
            }
        }
        Ok(healed)
    }

    fn heal_on(&mut self, object: u64, drive: u64, before: Healed) -> Result<Healed, Failure> {
        let tidied = pieces_unless_refused(self.tidy(object, drive))?;
        let mended = pieces_unless_refused(self.mend(object, drive))?;
        Ok(Healed {
            tidied: before.tidied.saturating_add(tidied),
            mended: before.mended.saturating_add(mended),
        })
    }
}
