// Keeps an archive on files: `keep DIR [N NEED]`, one command a line on standard input, one answer each.
#![tactic(auto)]

mod lock;
mod own;
mod session;
mod settling;
mod start;

use archive::Sizes;
use files::Ended;
use session::Session;
use start::open_archive;
use std::env;
use std::io::{BufRead, BufReader};
use std::process::ExitCode;

const HELP: &str =
    "keep DIR [N NEED]: keeps an archive of 256 objects on N drives, of which any NEED give every object back.

DIR/archive says where the drives' files lie, and DIR/next is the keeper's own file. The first start makes them, and needs N (2 to 32)
and NEED (1 to N - 1). Commands are read from standard input, one a line, and each is answered by one line (count by several):

  put O HEX          keeps these bytes, 65,536 at most, as object O (0 to 255)
  putfile O PATH     keeps a file's bytes as object O
  read O             answers with the object's bytes in hexadecimal
  readfile O PATH    writes the object's bytes to a file
  settle all         after a start: settles, writes anew and finishes every object that is unsure
  count              which drives are weak, and how many pieces of each object there are
  heal               takes away what is stale, and makes the pieces that are missing
  out D, in D        takes a drive out, or opens its file and takes it in
  new D              makes an empty file for a drive that was replaced, and takes it in
  begin O HEX, write O D, finish O, give up O, settle O, tidy O D, mend O D, sweep D
                     the single steps

Answers begin with 'ok', 'refused' and a number, or 'error:'.";

// What the words behind the program's name ask for.
#[derive(Drop)]
enum Asked {
    Help,
    Start { dir: String, sizes: Option<Sizes> },
}

// The message is printed here, since what `main` returns would be printed as `Error: ..`.
fn main(rt: HostRuntime) -> ExitCode {
    let Err(ended) = answer(rt) else {
        return ExitCode::SUCCESS;
    };
    ended.tell(rt, "keep");
    ExitCode::FAILURE
}

fn answer(rt: HostRuntime) -> Result<(), Ended> {
    match arguments(rt)? {
        Asked::Help => Ok(println!(rt; "{HELP}")?),
        Asked::Start { dir, sizes } => run(rt, dir.as_str(), sizes),
    }
}

fn arguments(rt: HostRuntime) -> Result<Asked, Ended> {
    let mut args = env::args(&rt)?;
    let _program = args.next();
    match (args.next(), args.next(), args.next(), args.next()) {
        (Some(dir), None, None, None) => Ok(alone(dir)),
        (Some(dir), Some(drives), Some(need), None) => Ok(Asked::Start {
            dir,
            sizes: Some(Sizes::new(drives.as_bytes(), need.as_bytes())?),
        }),
        _ => {
            eprintln!(rt; "usage: keep DIR [N NEED], or keep --help")?;
            Err(Ended::Told)
        }
    }
}

fn alone(dir: String) -> Asked {
    if dir.as_str() == "--help" {
        Asked::Help
    } else {
        Asked::Start { dir, sizes: None }
    }
}

fn run(rt: HostRuntime, dir: &str, sizes: Option<Sizes>) -> Result<(), Ended> {
    start::check(rt, dir, sizes)?;
    let lock = lock::take(rt, dir)?;
    let played = match open_archive(rt, dir, sizes) {
        Ok(session) => play(rt, session),
        Err(e) => Err(e),
    };
    lock.release();
    played
}

fn play(rt: HostRuntime, session: Session) -> Result<(), Ended> {
    let mut session = session;
    session.summary()?;
    for line in BufReader::new(rt.alloc(), rt.stdin())?.split(rt.alloc(), b'\n') {
        let line = line?;
        session.play_line(line.as_slice())?;
    }
    Ok(())
}
