// Says how well an archive is kept: `count DIR`. It only reads, and may run beside `keep`.
#![tactic(auto)]

use archive::{Archive, Count, Fault};
use files::{Ended, FileDisks, Setup, bring_up, load, open_disks};
use std::env;
use std::process::ExitCode;

// The message is printed here, since what `main` returns would be printed as `Error: ..`.
fn main(rt: HostRuntime) -> ExitCode {
    let Err(ended) = run(rt) else {
        return ExitCode::SUCCESS;
    };
    ended.tell(rt, "count");
    ExitCode::FAILURE
}

fn run(rt: HostRuntime) -> Result<(), Ended> {
    let mut args = env::args(&rt)?;
    let _program = args.next();
    match (args.next(), args.next()) {
        (Some(dir), None) => count_in(rt, dir.as_str()),
        _ => refused(rt, "usage: count DIR"),
    }
}

fn refused(rt: HostRuntime, why: &str) -> Result<(), Ended> {
    eprintln!(rt; "count: {why}")?;
    Err(Ended::Told)
}

fn count_in(rt: HostRuntime, dir: &str) -> Result<(), Ended> {
    match load(rt, dir)? {
        Some(setup) => count_on(rt, dir, &setup),
        None => refused(rt, "there is no archive here"),
    }
}

fn count_on(rt: HostRuntime, dir: &str, setup: &Setup) -> Result<(), Ended> {
    let mut disks = open_disks(rt, dir, setup, false)?;
    let keeper = bring_up(&mut disks, setup.sizes.need)?;
    let mut archive = Archive {
        heap: rt.alloc(),
        keeper,
        disks,
    };
    match counted(&mut archive) {
        Ok(count) => tell(rt, count),
        Err(fault) => {
            eprintln!(rt; "count: {fault}")?;
            Err(Ended::Told)
        }
    }
}

// Counts without the drives that fail: at most 32 do.
fn counted(archive: &mut Archive<FileDisks>) -> Result<Count, Fault> {
    for _drive in 0..32 {
        match archive.count() {
            Err(Fault::DriveFailed(drive)) => {
                let _ = archive.keeper.take_out(u64::from(drive));
            }
            other => return other,
        }
    }
    archive.count()
}

fn tell(rt: HostRuntime, count: Count) -> Result<(), Ended> {
    let weak = count.weak_line(rt.alloc())?;
    println!(rt; "{weak}")?;
    for kept in &count.objects {
        println!(rt; "{kept}")?;
    }
    Ok(())
}
