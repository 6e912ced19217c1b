// Runs of slots: Adler's sums of many inputs, to be compared with those of another implementation (tests/adler.sh), and every change of one byte of a written slot.
#![tactic(auto)]

use slots::{Owner, adler, read, write};
use std::io;
use std::ops::Range;

// How long an input may be: that of the longest record but for its sum, and a little more.
const LONGEST: usize = 65_574;

// Whose slot it is whose bytes are changed, and its version.
const OWNER: Owner = Owner {
    object: 3,
    drive: 1,
};

const VERSION: u64 = 1025;

// How many bytes that slot has, and how many of them are the record's.
const SLOT: usize = 32;

const RECORD: usize = 24;

// The next number of a generator that the script has too.
fn next(seed: u32) -> u32 {
    seed.wrapping_mul(1_664_525).wrapping_add(1_013_904_223)
}

// Fills bytes from the generator, and hands its next number on.
fn fill(bytes: &mut [u8], mut seed: u32) -> u32 {
    for b in bytes.iter_mut() {
        seed = next(seed);
        *b = (seed >> 24) as u8;
    }
    seed
}

// The sums of inputs from the generator, of each length from one up to another.
fn sums(rt: &impl Print, bytes: &mut [u8], from: usize, to: usize) -> io::Result<()> {
    let mut seed = 1;
    for len in from..to {
        if let Some(input) = bytes.get_mut(..len) {
            seed = fill(input, seed);
            let sum = adler(input);
            println!(rt; "{sum}")?;
        }
    }
    Ok(())
}

// A thousand short inputs, from none to 999 bytes; the longest, of bytes 255; and some that end around the code's own blocks.
fn all_sums(rt: &(impl Print + Alloc)) -> io::Result<()> {
    let mut buffer = vec![in rt.alloc(); 255u8; LONGEST]?;
    let sum = adler(buffer.as_slice());
    println!(rt; "{sum}")?;
    let bytes = buffer.as_mut_slice();
    sums(rt, bytes, 0, 1000)?;
    sums(rt, bytes, 2043, 2053)
}

// Whether a slot with this value at a place differs from what was written, and reads as nothing.
fn is_found(slot: &[u8; SLOT], place: usize, value: u8) -> bool {
    let mut changed = *slot;
    if let Some(byte) = changed.get_mut(place) {
        *byte = value;
    }
    changed != *slot && read(&changed, OWNER).is_none()
}

// How many of the 255 other values at a place are found.
fn found_at(slot: &[u8; SLOT], place: usize) -> usize {
    (0..=255u8)
        .filter(|value| is_found(slot, place, *value))
        .count()
}

// How many changes of one byte at these places are found.
fn found_in(slot: &[u8; SLOT], places: Range<usize>) -> usize {
    places.fold(
        0usize,
        |found, place| found.saturating_add(found_at(slot, place)),
    )
}

// Changes every byte of a slot with a record of 24 bytes and 8 bytes behind it, one at a time.
fn changes(rt: &impl Print) -> io::Result<()> {
    let mut slot = [9u8; SLOT];
    let written = write(&mut slot, OWNER, VERSION, &[5, 7, 0, 255, 9]);
    println!(rt; "written {written}")?;
    let within = found_in(&slot, 0..RECORD);
    let behind = found_in(&slot, RECORD..SLOT);
    println!(rt; "found {within} of 6120 changes of the record, {behind} of 2040 behind it")
}

fn main(rt: HostRuntime) -> io::Result<()> {
    all_sums(&rt)?;
    changes(&rt)
}
