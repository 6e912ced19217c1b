// Settling every object that is unsure.
use crate::session::Session;
use archive::{Failure, Fault};
use files::Ended;
use keeper::object::Answer;
use keeper::refusal::Refusal;
use std::io::IsTerminal;

// How many objects were written anew, count no version, and were refused.
#[derive(Clone, Copy, PartialEq, Eq, Debug)]
pub struct Settled {
    found: u16,
    none: u16,
    refused: u16,
}

impl Settled {
    // What came of an object, counted; a fault is handed on.
    fn add(&mut self, told: Result<Answer, Failure>) -> Result<(), Fault> {
        match told {
            Ok(Answer::Version(_)) => self.found = self.found.saturating_add(1),
            Ok(Answer::Nothing) => self.none = self.none.saturating_add(1),
            // it is being written, by begin
            Err(Failure::Refused(Refusal::NotUnsure)) => {}
            Err(Failure::Outside(fault)) => return Err(fault),
            _ => self.refused = self.refused.saturating_add(1),
        }
        Ok(())
    }
}

impl Session {
    // Settles, writes and finishes every object that is unsure, up to the first drive that fails.
    pub fn settle_all(&mut self) -> Result<Settled, Fault> {
        let mut settled = Settled {
            found: 0,
            none: 0,
            refused: 0,
        };
        for object in 0..=u8::MAX {
            self.show_progress(object);
            if self.archive.keeper.counted(object).is_none() {
                settled.add(self.settle_one(u64::from(object)))?;
            }
        }
        Ok(settled)
    }

    // A line that is written over again and again, where a person sees it.
    fn show_progress(&self, object: u8) {
        if self.rt.stderr().is_terminal() {
            let end = if object == u8::MAX { "\n" } else { "" };
            let _ = eprint!(self.rt; "\rsettling: object {object} of 255{end}");
        }
    }

    fn settle_one(&mut self, object: u64) -> Result<Answer, Failure> {
        match self.archive.settle(object)? {
            Answer::Found(_, _) => self.finish_anew(object),
            answer => Ok(answer),
        }
    }

    // What was found, written anew and finished; where that fails the object is unsure again.
    fn finish_anew(&mut self, object: u64) -> Result<Answer, Failure> {
        let done = self.write_anew(object);
        if !matches!(&done, Ok(Answer::Version(_))) {
            let _ = self.archive.give_up(object);
        }
        done
    }

    fn write_anew(&mut self, object: u64) -> Result<Answer, Failure> {
        let drives = self.archive.keeper.drives();
        for drive in 0..drives.count() {
            if drives.is_in(drive) {
                self.archive.write(object, u64::from(drive))?;
            }
        }
        self.archive.finish(object)
    }

    pub fn tell_settled(&mut self, settled: Result<Settled, Fault>) -> Result<(), Ended> {
        match settled {
            Ok(
                Settled {
                    found,
                    none,
                    refused,
                },
            ) => Ok(println!(self.rt; "ok found {found} none {none} refused {refused}")?),
            Err(fault) => self.tell_fault(fault),
        }
    }
}
