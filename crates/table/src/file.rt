// The keeper's file, written and read.
ghost use Rattle.std.specs.Prelude.{◌≡◌, ◌⊎◌, length, IfOk, true, false, Some, None, vec_len, MatchOption, MatchResult};
ghost use Rattle.drives.specs.Place.{objects};
ghost use Rattle.slots.specs.Layout.{number_at};
ghost use Rattle.keeper.specs.declared.refusal.Refusal.TheVariants.{BadFile, NoMemory};
ghost use Rattle.table.specs.File.{page_of, file_of, bars_in, is_file, read_file, FileReads};

use crate::page::Page;
use drives::OBJECTS;
use keeper::refusal::Refusal;
use std::alloc::{AllocError, Global};

// A number in bytes; its sum's bytes; and how many bytes a file has.
const WORD: usize = 8;

const SUM: usize = 4;

const FILE: usize = WORD + OBJECTS * WORD + SUM;

// All that the sum is of.
fn page(heap: Global, number: u64, bars: &[u64]) -> Result<Vec<u8>, AllocError>
    ensures { IfOk result (λ v. v.items ≡ page_of number bars.now) }
{
    let mut bytes = Vec::with_capacity(heap, FILE)?;
    bytes.extend_from_slice(&number.to_be_bytes())?;
    for bar in bars {
        bytes.extend_from_slice(&bar.to_be_bytes())?;
    }
    Ok(bytes)
}

// The file's bytes with this number and these bars.
pub fn encode(heap: Global, number: u64, bars: &[u64]) -> Result<Vec<u8>, AllocError>
    ensures { IfOk result (λ v. v.items ≡ file_of number bars.now) }
{
    let mut bytes = page(heap, number, bars)?;
    let sum = slots::adler(bytes.as_slice());
    bytes.extend_from_slice(&sum.to_be_bytes())?;
    Ok(bytes)
}

// The number in a file; none where the bytes are not as many as a file has, or their sum is wrong.
fn number_in(bytes: &[u8]) -> Option<u64>
    ensures { MatchOption result (is_file bytes.now ≡ false) (λ n. (is_file bytes.now ≡ true) × (length bytes.now ≡ 2060) × (n ≡ number_at bytes.now 0 8)) }
{
    if bytes.len() != FILE {
        return None;
    }
    let (summed, sum) = bytes.split_last_chunk::<SUM>()?;
    if u32::from_be_bytes(*sum) != slots::adler(summed) {
        return None;
    }
    Some(u64::from_be_bytes(*bytes.first_chunk::<WORD>()?))
}

// The bars of a file.
fn read_bars(heap: Global, bytes: &[u8]) -> Result<Vec<u64>, AllocError>
    requires { length bytes.now ≡ 2060 }
    ensures { IfOk result (λ v. (v.items ≡ bars_in objects bytes.now) × (vec_len v ≡ 256)) }
{
    let mut bars = Vec::with_capacity(heap, OBJECTS)?;
    // The sum behind them is half a word.
    for word in bytes[WORD..].as_chunks::<WORD>().0 {
        bars.push(u64::from_be_bytes(*word))?;
    }
    Ok(bars)
}

// What a file says. Refused where it has another length or a wrong sum.
pub fn decode(heap: Global, bytes: &[u8]) -> Result<Page, Refusal>
    ensures { MatchResult result (λ p. read_file bytes.now ≡ Some (p.number, p.bars.items)) (λ e. (e ≡ NoMemory) ⊎ ((e ≡ BadFile) × (read_file bytes.now ≡ None))) }
{
    let Some(number) = number_in(bytes) else {
        return Err(Refusal::BadFile);
    };
    let bars = read_bars(heap, bytes)?;
    Ok(Page { number, bars })
}

// What is read of a written file is what was written, as a contract: without its proof the crate isn't proved.
pub fn file_reads() -> u8
    ensures { FileReads }
{
    0
}
