// Which of the drives are in.
ghost use Rattle.std.specs.Prelude.{◌≡◌, ℕ, ◌≤◌, Bool, true, false, length, take, replicate, MatchOption, nat_lt, slice_index_or, slice_set};
ghost use Rattle.drives.specs.State.{most_drives, may_count, in_at, set_at, how_many};

// The most drives that there may be.
const MOST: usize = 32;

// The count of drives, 2 to 32, and for each whether it is in; the flags past the count say nothing.
#[derive(Clone, Copy)]
pub struct Drives {
    count: u8,
    present: [bool; MOST],
    ghost few: { count ≤ 32 },
}

// How many flags are set.
pub fn how_many(flags: &[bool]) -> usize
    ensures { result ≡ how_many flags.now }
{
    // Added up and not filtered: such a loop the compiler makes wide.
    let mut n = 0;
    for flag in flags {
        n += usize::from(*flag);
    }
    n
}

impl Drives {
    // So many drives, all of them in; none where there may not be so many.
    pub fn new(count: u8) -> Option<Drives>
        ensures { MatchOption result (may_count count ≡ false) (λ s. (may_count count ≡ true) × (s.count ≡ count) × (s.present ≡ replicate most_drives true)) }
    {
        if count < 2 || usize::from(count) > MOST {
            return None;
        }
        Some(Drives {
            count,
            present: [true; MOST],
        })
    }

    // How many drives there are.
    pub fn count(&self) -> u8
        ensures { result ≡ self.now.count }
    {
        self.count
    }

    // Whether there is such a drive, and it is in.
    pub fn is_in(&self, drive: u8) -> bool
        ensures { result ≡ in_at self.now.count self.now.present drive }
    {
        drive < self.count && self.present[usize::from(drive)]
    }

    // The drive is in from now on, or out, as `is_in` says. False, and nothing changes, where there is no such drive.
    pub fn set(&mut self, drive: u8, is_in: bool) -> bool
        ensures answer { result ≡ nat_lt drive self.old.count }
        ensures count { self.new.count ≡ self.old.count }
        ensures after { self.new.present ≡ set_at self.old.count self.old.present drive is_in }
    {
        if drive >= self.count {
            return false;
        }
        self.present[usize::from(drive)] = is_in;
        true
    }

    // The drive is in from now on. False, and nothing changes, where there is no such drive.
    pub fn put_in(&mut self, drive: u8) -> bool
        ensures answer { result ≡ nat_lt drive self.old.count }
        ensures count { self.new.count ≡ self.old.count }
        ensures after { self.new.present ≡ set_at self.old.count self.old.present drive true }
    {
        self.set(drive, true)
    }

    // The drive is out from now on. False, and nothing changes, where there is no such drive.
    pub fn take_out(&mut self, drive: u8) -> bool
        ensures answer { result ≡ nat_lt drive self.old.count }
        ensures count { self.new.count ≡ self.old.count }
        ensures after { self.new.present ≡ set_at self.old.count self.old.present drive false }
    {
        self.set(drive, false)
    }

    // For each drive whether it is in.
    pub fn flags(&self) -> &[bool]
        ensures each { result.now ≡ take self.now.count self.now.present }
        ensures few { length result.now ≤ 32 }
    {
        &self.present[..usize::from(self.count)]
    }

    // How many drives are in.
    pub fn how_many_in(&self) -> usize
        ensures { result ≡ how_many (take self.now.count self.now.present) }
    {
        how_many(self.flags())
    }
}
