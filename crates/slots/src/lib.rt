// One slot: the bytes by which a piece of a version of an object lies on a drive, with Adler's sum.
#![tactic(auto)]

mod laws;
mod slot;
mod sum;

pub use laws::{slots_stand, torn_twice};
pub use slot::{HEADER, Held, Owner, SLOT, clear, encode, read, record_len, slot_len, write};
pub use sum::adler;
