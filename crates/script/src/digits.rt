// Decimal numbers and hexadecimal bytes.
ghost use Rattle.std.specs.Prelude.{◌≡◌, ◌<◌, IfOk, Ok, vec_items, string_bytes};
ghost use Rattle.script.specs.Digits.{decimal, number_of, nibble, byte_of, from_hex, to_hex};
ghost use Rattle.script.specs.Errors.{Gives};

use crate::error::LineError;
use std::alloc::{AllocError, Global};

// None where there is no digit, or another byte. What is too large for 64 bits is taken as the largest number.
pub fn number(word: &[u8]) -> Option<u64>
    ensures { result ≡ number_of word.now }
{
    if word.is_empty() {
        None
    } else {
        value_of(word)
    }
}

fn value_of(word: &[u8]) -> Option<u64>
    ensures { result ≡ decimal 0 word.now }
{
    let mut n: u64 = 0;
    for b in word {
        if !b.is_ascii_digit() {
            return None;
        }
        n = n.saturating_mul(10).saturating_add(u64::from(*b - b'0'));
    }
    Some(n)
}

// The value of a hexadecimal digit.
fn value(digit: u8) -> Option<u8>
    ensures { result ≡ nibble digit }
{
    match digit {
        b'0'..=b'9' => Some(digit - b'0'),
        b'a'..=b'f' => Some(digit - b'a' + 10),
        b'A'..=b'F' => Some(digit - b'A' + 10),
        _ => None,
    }
}

// The bytes that pairs of hexadecimal digits stand for. Memory is asked for once, for all of them.
pub fn unhex(heap: Global, digits: &[u8]) -> Result<Vec<u8>, LineError>
    ensures { Gives (Unit {0}) vec_items (from_hex digits.now) result }
{
    let mut bytes = Vec::with_capacity(heap, digits.len() / 2)?;
    let mut left = digits;
    while let [high, low, rest @ ..] = left {
        let byte = pair(*high, *low).ok_or(LineError::NotHexadecimal)?;
        bytes.push_reserved(byte);
        left = rest;
    }
    if left.is_empty() {
        Ok(bytes)
    } else {
        Err(LineError::OddDigits)
    }
}

// The byte that two hexadecimal digits stand for.
fn pair(high: u8, low: u8) -> Option<u8>
    ensures { result ≡ byte_of (nibble high) (nibble low) }
{
    Some(value(high)? * 16 + value(low)?)
}

// Two digits for each byte, in lower case; read as such, they give the bytes back.
pub fn hex(heap: Global, bytes: &[u8]) -> Result<String, AllocError>
    ensures written { IfOk result (λ s. string_bytes s ≡ to_hex bytes.now) }
    ensures read_back { IfOk result (λ s. from_hex (string_bytes s) ≡ Ok bytes.now) }
{
    hex::encode(heap, bytes)
}
