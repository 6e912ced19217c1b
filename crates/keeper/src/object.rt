// What a step of the keeper takes and gives back: an object's state, the pieces read of it, the answer, and what is to be done outside.
ghost use Rattle.std.specs.Prelude.{◌≡◌, ◌+◌, ◌^◌, ◌<◌, true, false, MatchResult, nat_le};
ghost use Rattle.std.specs.Result.{result_map_both};
ghost use Rattle.keeper.specs.Shown.{known_of, content_of};
ghost use Rattle.keeper.specs.Steps.{counted, being_written, last_number, raised_above};
ghost use Rattle.keeper.specs.declared.refusal.Refusal.TheVariants.{NoMoreVersions};

use crate::refusal::Refusal;
use crate::writing::Writing;

const STRIDE: u64 = 1024;

// The first version number that isn't used any more.
pub const LAST_NUMBER: u64 = 1 << 63;

// What is known of an object.
#[derive(Drop)]
pub enum Known {
    Unsure,
    // the version that counts, 0 for none
    Counts(u64),
    // it is being written
    Writing(Writing),
}

impl Known {
    // The version that counts.
    pub fn counted(&self) -> Result<u64, Refusal>
        ensures { result ≡ counted (known_of self.now) }
    {
        match self {
            Known::Unsure => Err(Refusal::Unsure),
            Known::Writing(_) => Err(Refusal::BeingWritten),
            Known::Counts(version) => Ok(*version),
        }
    }

    // The writing that was begun.
    pub fn writing(&self) -> Result<&Writing, Refusal>
        ensures { result_map_both (λ w. (w.now.to, content_of w.now.content)) (λ e. e) result ≡ being_written (known_of self.now) }
    {
        match self {
            Known::Writing(writing) => Ok(writing),
            _ => Err(Refusal::NotBeingWritten),
        }
    }
}

// The numbers that all objects share.
#[derive(Clone, Copy, PartialEq, Eq, Debug)]
pub struct Numbers {
    // the number of the next version, never used before
    pub next: u64,
    // the number in the file, 1 where there is no file
    pub file: u64,
}

impl Numbers {
    // Refused where all version numbers are used up.
    pub fn check(self) -> Result<(), Refusal>
        ensures { MatchResult result (λ _. nat_le last_number self.next ≡ false) (λ e. (nat_le last_number self.next ≡ true) × (e ≡ NoMoreVersions)) }
    {
        if self.next >= LAST_NUMBER {
            return Err(Refusal::NoMoreVersions);
        }
        Ok(())
    }

    // The numbers once the next version's is used: where the file's isn't above it, that is raised first.
    pub fn used(self) -> Numbers
        requires { self.next < 2 ^ 63 }
        ensures next { result.next ≡ self.next + 1 }
        ensures file { result.file ≡ raised_above self.file self.next }
    {
        let file = if self.file <= self.next {
            self.file + STRIDE
        } else {
            self.file
        };
        Numbers {
            next: self.next + 1,
            file,
        }
    }
}

// An object's state. A step takes it by value and hands it back.
#[derive(Drop)]
pub struct Object {
    pub known: Known,
    // below this version nothing of the object counts any more
    pub bar: u64,
    pub numbers: Numbers,
}

// A piece of the object that was read on a drive that is in.
#[derive(Drop)]
pub struct Entry {
    pub drive: u8,
    pub place: u8,
    pub version: u64,
    pub piece: Vec<u8>,
}

// What is to be done outside, and waited for, before the next.
#[derive(Drop)]
pub enum Effect {
    // these bytes go to the front of a place
    Write {
        drive: u8,
        place: u8,
        bytes: Vec<u8>,
    },
    // zeros go over the whole record in a place
    Clear {
        drive: u8,
        place: u8,
    },
    // the file is replaced by one with this number, and with this bar for the object
    Replace {
        number: u64,
        bar: u64,
    },
}

// What the caller is told of a step that isn't refused.
#[derive(Drop)]
pub enum Answer {
    Done,
    Version(u64),
    // the version that counts and its bytes
    Has(u64, Vec<u8>),
    // the object counts no version
    Nothing,
    // so many pieces went
    Removed(usize),
    // so many pieces were made
    Mended(u8),
    // settling found a version, and writes it anew as another
    Found(u64, u64),
    // whether the writing counts isn't known
    Unknown,
}

// A step: what is told once the effects are done in their order, and the object's state from then on.
#[derive(Drop)]
pub struct Step {
    pub answer: Result<Answer, Refusal>,
    pub effects: Vec<Effect>,
    pub object: Object,
}
