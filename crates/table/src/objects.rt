// The keeper of all objects: looked at, and changed by what happens to its drives and by what a step hands back.
ghost use Rattle.std.specs.Prelude.{◌≡◌, true, false, map, IfOk, if◌then◌else◌, vec_len, MatchOption, nat_lt, slice_index, slice_index_or, slice_set};
ghost use Rattle.drives.specs.State.{set_at};
ghost use Rattle.table.specs.File.{file_of};
ghost use Rattle.keeper.specs.Object.{unsure, done, refused};
ghost use Rattle.keeper.specs.Shown.{known_of, state_of, told};
ghost use Rattle.table.specs.Table.{knowledge, bars_of, state_at, Lent, Accepted, Moved, counted_of, Table};
ghost use Rattle.keeper.specs.declared.refusal.Refusal.TheVariants.{NoSuch};

use crate::file::encode;
use crate::table::{Keeper, Row};
use drives::{Drives, OBJECTS};
use keeper::object::{Answer, Known, Object};
use keeper::refusal::Refusal;
use std::alloc::{AllocError, Global};
use std::mem::replace;

// An object's row, taken out: there it stands as unsure from then on, with its bar. Past the end nothing changes.
fn take_row(rows: &mut Vec<Row>, at: u64) -> Row
    ensures known { known_of result.known ≡ slice_index_or (map (λ r. known_of r.known) rows.old.items) at unsure }
    ensures bar { result.bar ≡ slice_index (map (λ r. r.bar) rows.old.items) at }
    ensures after { map (λ r. known_of r.known) rows.new.items ≡ slice_set (map (λ r. known_of r.known) rows.old.items) at unsure }
    ensures bars { map (λ r. r.bar) rows.new.items ≡ map (λ r. r.bar) rows.old.items }
    ensures len { vec_len rows.new ≡ vec_len rows.old }
{
    if at >= rows.len() as u64 {
        return Row {
            known: Known::Unsure,
            bar: 0,
        };
    }
    let row = &mut rows[at as usize];
    let known = replace(&mut row.known, Known::Unsure);
    let bar = row.bar;
    Row { known, bar }
}

// The bars of all objects.
fn bars(heap: Global, rows: &[Row]) -> Result<Vec<u64>, AllocError>
    ensures { IfOk result (λ v. v.items ≡ map (λ r. r.bar) rows.now) }
{
    rows.iter().map(|row| row.bar).collect(heap)
}

impl Keeper {
    // Which drives are in.
    pub fn drives(&self) -> Drives
        ensures { result ≡ self.now.drives }
    {
        self.drives
    }

    // How many pieces give an object back.
    pub fn need(&self) -> u8
        ensures { result ≡ self.now.need }
    {
        self.need
    }

    // The version below which nothing of an object counts any more.
    pub fn bar(&self, object: u8) -> u64
        ensures { result ≡ slice_index (bars_of self.now) object }
    {
        self.rows[usize::from(object)].bar
    }

    // The version that an object counts, 0 for none; none where it is unsure or being written.
    pub fn counted(&self, object: u8) -> Option<u64>
        ensures { result ≡ counted_of (slice_index_or (knowledge self.now) object unsure) }
    {
        self.rows[usize::from(object)].known.counted().ok()
    }

    // The drive is in from now on. Refused, and nothing changes, where there is no such drive.
    pub fn put_in(&mut self, drive: u64) -> Result<Answer, Refusal>
        ensures answer { told result ≡ (if nat_lt drive self.old.drives.count then done else refused NoSuch) }
        ensures present { self.new.drives.present ≡ set_at self.old.drives.count self.old.drives.present drive true }
        ensures rest { Moved self.old self.new }
    {
        self.set_in(drive, true)
    }

    // The drive is out from now on. Refused, and nothing changes, where there is no such drive.
    pub fn take_out(&mut self, drive: u64) -> Result<Answer, Refusal>
        ensures answer { told result ≡ (if nat_lt drive self.old.drives.count then done else refused NoSuch) }
        ensures present { self.new.drives.present ≡ set_at self.old.drives.count self.old.drives.present drive false }
        ensures rest { Moved self.old self.new }
    {
        self.set_in(drive, false)
    }

    // The drive is in from now on, or out, as `is_in` says.
    fn set_in(&mut self, drive: u64, is_in: bool) -> Result<Answer, Refusal>
        ensures answer { told result ≡ (if nat_lt drive self.old.drives.count then done else refused NoSuch) }
        ensures present { self.new.drives.present ≡ set_at self.old.drives.count self.old.drives.present drive is_in }
        ensures rest { Moved self.old self.new }
    {
        let Some(drive) = self.drive_of(drive) else {
            return Err(Refusal::NoSuch);
        };
        let mut drives = self.drives;
        drives.set(drive, is_in);
        self.drives = drives;
        Ok(Answer::Done)
    }

    // The drive of a number; none where there is no such drive.
    pub fn drive_of(&self, drive: u64) -> Option<u8>
        ensures { MatchOption result (nat_lt drive self.now.drives.count ≡ false) (λ d. (d ≡ drive) × (nat_lt drive self.now.drives.count ≡ true)) }
    {
        (drive < u64::from(self.drives.count())).then(|| drive as u8)
    }

    // Takes an object's state out of the table; there it stands as unsure meanwhile.
    pub(crate) fn lend(&mut self, object: u64) -> Object
        ensures state { state_of result ≡ state_at self.old object }
        ensures after { Lent self.old self.new object }
    {
        let Row { known, bar } = take_row(&mut self.rows, object);
        Object {
            known,
            bar,
            numbers: self.numbers,
        }
    }

    // Hands an object's state back, once a step's effects are done. Nothing where there is no such object.
    pub fn accept(&mut self, object: u64, state: Object)
        ensures { Accepted self.old self.new object (state_of state) }
    {
        if object >= OBJECTS as u64 {
            return;
        }
        let Object {
            known,
            bar,
            numbers,
        } = state;
        self.rows[object as usize] = Row { known, bar };
        self.numbers = numbers;
    }

    // The file's bytes with this number, and with this bar for the object, all other bars as they are.
    pub fn file(
        &self,
        heap: Global,
        object: u8,
        number: u64,
        bar: u64,
    ) -> Result<Vec<u8>, AllocError>
        ensures { IfOk result (λ v. v.items ≡ file_of number (slice_set (bars_of self.now) object bar)) }
    {
        let mut bars = bars(heap, self.rows.as_slice())?;
        bars[usize::from(object)] = bar;
        encode(heap, number, bars.as_slice())
    }
}

// A state that was handed back stands in the table, and no step touches another object there; as a contract: without its proof the crate isn't proved.
pub fn table_stands() -> u8
    ensures { Table }
{
    0
}
