// The keeper of all objects, as it starts: with its file, or for the first time.
ghost use Rattle.std.specs.Prelude.{◌≡◌, false, true, ◌&&◌, ◌⊎◌, map, length, replicate, IfOk, Err, vec_len, MatchOption, MatchResult};
ghost use Rattle.std.specs.Option.{option_map};
ghost use Rattle.drives.specs.State.{may_count};
ghost use Rattle.keeper.specs.Object.{counts};
ghost use Rattle.keeper.specs.Shown.{known_of};
ghost use Rattle.keeper.specs.declared.refusal.Refusal.TheVariants.{NoMemory};
ghost use Rattle.table.specs.Table.{may_need, knowing_of, First, first_start, coming_up, Up, starting, known_at, Starts};

use crate::file::decode;
use crate::page::Page;
use crate::table::{Keeper, Row};
use drives::{Drives, OBJECTS};
use keeper::object::{Known, Numbers};
use keeper::refusal::Refusal;
use std::alloc::{AllocError, Global};

// Of so many drives, whether so many may be needed.
fn may_need(drives: u8, need: u8) -> bool
    ensures { result ≡ may_need drives need }
{
    0 < need && need < drives
}

// What is known where a version counts, and where none is sure.
fn known_by(version: Option<u64>) -> Known
    ensures { known_of result ≡ knowing_of version }
{
    match version {
        Some(version) => Known::Counts(version),
        None => Known::Unsure,
    }
}

// A row for each of these bars, of which the same is known.
fn rows(heap: Global, version: Option<u64>, bars: &[u64]) -> Result<Vec<Row>, AllocError>
    requires { length bars.now ≡ 256 }
    ensures known { IfOk result (λ v. map (λ r. known_of r.known) v.items ≡ replicate 256 (knowing_of version)) }
    ensures bars { IfOk result (λ v. map (λ r. r.bar) v.items ≡ bars.now) }
    ensures len { IfOk result (λ v. vec_len v ≡ 256) }
{
    let mut rows = Vec::with_capacity(heap, OBJECTS)?;
    for bar in bars {
        rows.push(Row {
            known: known_by(version),
            bar: *bar,
        })?;
    }
    Ok(rows)
}

impl Keeper {
    // Starts on these drives, those that are out among them. With a file the keeper comes up; with none it is a first start, unless a drive that is in holds
    // a piece: then the file was lost.
    pub fn start(
        heap: Global,
        drives: Drives,
        need: u8,
        file: Option<&[u8]>,
        holds: bool,
    ) -> Result<Keeper, Refusal>
        ensures { Starts drives need (known_at (option_map (λ bytes. bytes.now) file.entry)) (starting drives.count need (option_map (λ bytes. bytes.now) file.entry) holds) result }
    {
        match file {
            Some(bytes) => Keeper::come_up(heap, drives, need, bytes),
            None => Keeper::first_start(heap, drives, need, holds),
        }
    }

    // Coming up with a file: all objects are unsure, and the next number is the file's.
    pub fn come_up(heap: Global, drives: Drives, need: u8, file: &[u8]) -> Result<Keeper, Refusal>
        ensures { MatchResult result (λ k. Up drives need file.now k) (λ e. (e ≡ NoMemory) ⊎ (coming_up drives.count need file.now ≡ Err e)) }
    {
        if !may_need(drives.count(), need) {
            return Err(Refusal::NoSuch);
        }
        let Page { number, bars } = decode(heap, file)?;
        Ok(Keeper {
            need,
            drives,
            rows: rows(heap, None, bars.as_slice())?,
            numbers: Numbers {
                next: number,
                file: number,
            },
        })
    }

    // A first start: every object counts 0, and no number was used.
    fn first_start(heap: Global, drives: Drives, need: u8, holds: bool) -> Result<Keeper, Refusal>
        ensures { Starts drives need (counts 0) (first_start drives.count need holds) result }
    {
        if !may_need(drives.count(), need) {
            return Err(Refusal::NoSuch);
        }
        if holds {
            return Err(Refusal::BadFile);
        }
        let keeper = Keeper::first(heap, drives.count(), need)?.ok_or(Refusal::NoSuch)?;
        Ok(keeper.on(drives))
    }

    // A first start: so many drives, all of them in, and no file. None where there may not be so many drives, or so many may not be needed.
    pub fn first(heap: Global, drives: u8, need: u8) -> Result<Option<Keeper>, AllocError>
        ensures { IfOk result (λ o. MatchOption o (may_count drives && may_need drives need ≡ false) (λ k. (may_count drives && may_need drives need ≡ true) × First drives need k)) }
    {
        if !may_need(drives, need) {
            return Ok(None);
        }
        let Some(drives) = Drives::new(drives) else {
            return Ok(None);
        };
        Ok(Some(Keeper {
            need,
            drives,
            rows: rows(heap, Some(0), &[0; OBJECTS])?,
            numbers: Numbers { next: 1, file: 1 },
        }))
    }

    // The same keeper on these drives.
    fn on(self, drives: Drives) -> Keeper
        ensures { result ≡ record self { drives = drives } }
    {
        let mut keeper = self;
        keeper.drives = drives;
        keeper
    }
}
