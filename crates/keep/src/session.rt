// A session: lines played on the archive, and their answers told.
use crate::own::{Own, own_command};
use archive::{Archive, Count, Failure, Fault, Reply};
use files::{Ended, FileDisks};
use keeper::object::Answer;
use script::Command;
use std::fs::File;
use std::io::Read;
use std::{fs, io};

// No object is as long as this: of a file no more is read.
const MOST: u64 = 4_194_304;

#[derive(Drop)]
pub struct Session {
    pub rt: HostRuntime,
    pub archive: Archive<FileDisks>,
}

// The start of a file, as much of it as any object may have, and more.
fn file_bytes(rt: HostRuntime, path: &str) -> io::Result<Vec<u8>> {
    let file = File::open(&rt, path)?;
    let mut bytes = Vec::new(rt.alloc());
    let mut part = file.take(MOST);
    part.read_to_end(&mut bytes)?;
    Ok(bytes)
}

impl Session {
    // Says on standard error how many drives are in, and how many objects are unsure.
    pub fn summary(&self) -> Result<(), Ended> {
        let drives = self.archive.keeper.drives();
        let (count, present, need) = (
            drives.count(),
            drives.how_many_in(),
            self.archive.keeper.need(),
        );
        let (unsure, barred) = self.unsure();
        eprintln!(self.rt; "keep: {present} of {count} drives are in, {need} are needed")?;
        if unsure > 0 {
            eprintln!(self.rt;
                "keep: {unsure} objects are unsure, {barred} of them once written; `settle all` settles them"
            )?;
        }
        Ok(())
    }

    // How many objects are unsure, and how many of these were finished or settled once.
    fn unsure(&self) -> (u16, u16) {
        let mut unsure: u16 = 0;
        let mut barred: u16 = 0;
        for object in 0..=u8::MAX {
            if self.archive.keeper.counted(object).is_none() {
                unsure = unsure.saturating_add(1);
                barred = barred.saturating_add(u16::from(self.archive.keeper.bar(object) != 0));
            }
        }
        (unsure, barred)
    }

    pub fn play_line(&mut self, line: &[u8]) -> Result<(), Ended> {
        match std::str::from_utf8(line) {
            Ok(text) => self.play_text(text),
            Err(_) => self.play_script(line),
        }
    }

    fn play_text(&mut self, line: &str) -> Result<(), Ended> {
        match own_command(line) {
            Ok(Some(own)) => self.play_own(own),
            Ok(None) => self.play_script(line.as_bytes()),
            Err(e) => Ok(println!(self.rt; "error: {e}")?),
        }
    }

    fn play_own(&mut self, own: Own<'_>) -> Result<(), Ended> {
        match own {
            Own::SettleAll => {
                let settled = self.settle_all();
                self.tell_settled(settled)
            }
            Own::New { drive } => self.make(drive),
            Own::PutFile { object, path } => self.put_file(object, path),
            Own::ReadFile { object, path } => self.read_file(object, path),
        }
    }

    fn play_script(&mut self, line: &[u8]) -> Result<(), Ended> {
        match script::parse(self.rt.alloc(), line) {
            Ok(None) => Ok(()),
            Ok(Some(command)) => self.play_command(command),
            Err(e) => Ok(println!(self.rt; "error: {e}")?),
        }
    }

    fn play_command(&mut self, command: Command) -> Result<(), Ended> {
        match command {
            Command::Count => self.count(),
            Command::In { drive } => self.put_in(drive),
            Command::Out { drive } => self.take_out(drive),
            other => {
                let played = self.archive.play(other);
                self.tell(played)
            }
        }
    }

    fn tell(&mut self, played: Result<Reply, Fault>) -> Result<(), Ended> {
        match played {
            Ok(reply) => Ok(println!(self.rt; "{reply}")?),
            Err(fault) => self.tell_fault(fault),
        }
    }

    // A drive that failed is out; where the keeper's own file failed the program ends.
    pub fn tell_fault(&mut self, fault: Fault) -> Result<(), Ended> {
        if let Fault::DriveFailed(drive) = fault {
            let _ = self.archive.keeper.take_out(u64::from(drive));
        }
        println!(self.rt; "error: {fault}")?;
        if fault == Fault::FileFailed {
            Err(Ended::Told)
        } else {
            Ok(())
        }
    }

    fn tell_error(&mut self, path: &str, error: io::Error) -> Result<(), Ended> {
        Ok(println!(self.rt; "error: {path}: {error}")?)
    }

    // Opens a drive's file, if it is out, and takes it in.
    fn put_in(&mut self, number: u64) -> Result<(), Ended> {
        if let Some(drive) = self.archive.keeper.drive_of(number)
            && !self.archive.disks.is_open(drive)
            && let Err(error) = self.archive.disks.open(drive)
        {
            return Ok(println!(self.rt; "error: drive {drive} can't be opened: {error}")?);
        }
        let played = self.archive.play(Command::In { drive: number });
        self.tell(played)
    }

    fn take_out(&mut self, number: u64) -> Result<(), Ended> {
        if let Some(drive) = self.archive.keeper.drive_of(number) {
            self.archive.disks.close(drive);
        }
        let played = self.archive.play(Command::Out { drive: number });
        self.tell(played)
    }

    // Makes an empty file for a drive, and takes it in.
    fn make(&mut self, number: u64) -> Result<(), Ended> {
        if let Some(drive) = self.archive.keeper.drive_of(number)
            && let Err(error) = self.archive.disks.make(drive)
        {
            return Ok(println!(self.rt; "error: drive {drive} can't be made: {error}")?);
        }
        let played = self.archive.play(Command::In { drive: number });
        self.tell(played)
    }

    fn put_file(&mut self, object: u64, path: &str) -> Result<(), Ended> {
        match file_bytes(self.rt, path) {
            Ok(bytes) => {
                let played = self.archive.play(Command::Put { object, bytes });
                self.tell(played)
            }
            Err(error) => self.tell_error(path, error),
        }
    }

    fn read_file(&mut self, object: u64, path: &str) -> Result<(), Ended> {
        match self.archive.read(object) {
            Ok(Answer::Has(version, bytes)) => self.write_file(version, bytes.as_slice(), path),
            Ok(_) => self.tell(Ok(Reply::Nothing)),
            Err(Failure::Refused(why)) => self.tell(Ok(Reply::Refused(why))),
            Err(Failure::Outside(fault)) => self.tell_fault(fault),
        }
    }

    fn write_file(&mut self, version: u64, bytes: &[u8], path: &str) -> Result<(), Ended> {
        match fs::write(&self.rt, path, bytes) {
            Ok(()) => Ok(println!(self.rt; "ok version {version}")?),
            Err(error) => self.tell_error(path, error),
        }
    }

    fn count(&mut self) -> Result<(), Ended> {
        match self.archive.count() {
            Ok(count) => self.tell_count(count),
            Err(fault) => self.tell_fault(fault),
        }
    }

    fn tell_count(&mut self, count: Count) -> Result<(), Ended> {
        let weak = count.weak_line(self.rt.alloc())?;
        println!(self.rt; "{weak}")?;
        for kept in &count.objects {
            println!(self.rt; "{kept}")?;
        }
        Ok(())
    }
}
