// Plays lines on drives in memory: `rehearse N NEED`, one command a line on standard input, one answer each.
#![tactic(auto)]

mod ended;
mod memory;
mod rehearsal;
mod slot;

use archive::{Fault, Reply, Sizes};
use ended::Ended;
use rehearsal::Rehearsal;
use script::Command;
use std::env;
use std::io::{BufRead, BufReader};
use std::process::ExitCode;

// The message is printed here, since what `main` returns would be printed as `Error: ..`. Where a line can't be read or written there is none.
fn main(rt: HostRuntime) -> ExitCode {
    let Err(ended) = run(&rt) else {
        return ExitCode::SUCCESS;
    };
    let _ = match ended {
        Ended::Usage => eprintln!(rt; "rehearse: usage: rehearse N NEED"),
        Ended::Sizes(e) => eprintln!(rt; "rehearse: {e}"),
        Ended::Fault(fault) => eprintln!(rt; "rehearse: {fault}"),
        Ended::Io(e) => Err(e),
    };
    ExitCode::FAILURE
}

fn run(rt: &HostRuntime) -> Result<(), Ended> {
    let mut rehearsal = Rehearsal::new(rt.alloc(), arguments(rt)?)?;
    for line in BufReader::new(rt.alloc(), rt.stdin())?.split(rt.alloc(), b'\n') {
        let line = line?;
        play_line(rt, &mut rehearsal, &line)?;
    }
    Ok(())
}

fn arguments(rt: &HostRuntime) -> Result<Sizes, Ended> {
    let mut args = env::args(rt)?;
    let _program = args.next();
    let (Some(drives), Some(need), None) = (args.next(), args.next(), args.next()) else {
        return Err(Ended::Usage);
    };
    Ok(Sizes::new(drives.as_bytes(), need.as_bytes())?)
}

fn play_line(rt: &HostRuntime, rehearsal: &mut Rehearsal, line: &[u8]) -> Result<(), Ended> {
    match script::parse(rt.alloc(), line) {
        Ok(None) => Ok(()),
        Ok(Some(command)) => play_command(rt, rehearsal, command),
        Err(e) => Ok(println!(rt; "error: {e}")?),
    }
}

fn play_command(
    rt: &HostRuntime,
    rehearsal: &mut Rehearsal,
    command: Command,
) -> Result<(), Ended> {
    match command {
        Command::Show => show(rt, rehearsal),
        Command::Count => count(rt, rehearsal),
        other => {
            let played = rehearsal.play(other);
            tell(rt, rehearsal, played)
        }
    }
}

// Tells what came of a command; after a stop the keeper comes up again.
fn tell(
    rt: &HostRuntime,
    rehearsal: &mut Rehearsal,
    played: Result<Reply, Fault>,
) -> Result<(), Ended> {
    match played {
        Ok(reply) => println!(rt; "{reply}")?,
        Err(Fault::Stopped) => {
            rehearsal.come_up()?;
            println!(rt; "stopped")?;
        }
        Err(Fault::FileFailed) => return Err(Ended::Fault(Fault::FileFailed)),
        Err(fault) => println!(rt; "error: {fault}")?,
    }
    Ok(())
}

fn show(rt: &HostRuntime, rehearsal: &mut Rehearsal) -> Result<(), Ended> {
    for drive in 0..rehearsal.archive.keeper.drives().count() {
        let line = rehearsal.drive_line(drive)?;
        println!(rt; "{line}")?;
    }
    Ok(())
}

fn count(rt: &HostRuntime, rehearsal: &mut Rehearsal) -> Result<(), Ended> {
    let count = rehearsal.archive.count()?;
    let weak = count.weak_line(rt.alloc())?;
    println!(rt; "{weak}")?;
    for kept in &count.objects {
        println!(rt; "{kept}")?;
    }
    Ok(())
}
