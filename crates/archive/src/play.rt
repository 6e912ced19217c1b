// A command's way to its answer.
use crate::archive::Archive;
use crate::disks::Disks;
use crate::fault::{Failure, Fault};
use crate::reply::{Reply, reply_to};
use keeper::refusal::Refusal;
use script::Command;

impl<D: Disks> Archive<D> {
    // Plays a command of one line. A drive that fails is out from then on. What isn't a step of the keeper's is for the program to do.
    pub fn play(&mut self, command: Command) -> Result<Reply, Fault> {
        match self.play_command(command) {
            Ok(reply) => Ok(reply),
            Err(Failure::Refused(Refusal::NoMemory)) => Err(Fault::NoMemory),
            Err(Failure::Refused(why)) => Ok(Reply::Refused(why)),
            Err(Failure::Outside(fault)) => {
                if let Fault::DriveFailed(drive) = fault {
                    let _ = self.keeper.take_out(u64::from(drive));
                }
                Err(fault)
            }
        }
    }

    fn play_command(&mut self, command: Command) -> Result<Reply, Failure> {
        let answer = match command {
            Command::Begin { object, bytes } => self.begin(object, bytes)?,
            Command::Write { object, drive } => self.write(object, drive)?,
            Command::Finish { object } => self.finish(object)?,
            Command::Read { object } => self.read(object)?,
            Command::Tidy { object, drive } => self.tidy(object, drive)?,
            Command::Mend { object, drive } => self.mend(object, drive)?,
            Command::Sweep { drive } => self.sweep(drive)?,
            Command::Settle { object } => self.settle(object)?,
            Command::GiveUp { object } => self.give_up(object)?,
            Command::Put { object, bytes } => self.put(object, bytes)?,
            Command::Out { drive } => self.keeper.take_out(drive)?,
            Command::In { drive } => self.keeper.put_in(drive)?,
            Command::Heal => return Ok(Reply::Healed(self.heal()?)),
            Command::Count
            | Command::Show
            | Command::Stop(_)
            | Command::Wipe { .. }
            | Command::Spoil { .. } => return Ok(Reply::NotHere),
        };
        Ok(reply_to(self.heap, answer)?)
    }
}
