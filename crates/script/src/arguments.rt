// What follows a command's first word.
ghost use Rattle.std.specs.Prelude.{◌≡◌, map};
ghost use Rattle.script.specs.Arguments.{number_at, nothing, one_number, two_numbers, three_numbers, number_and_bytes, with_items, give_up, stop_at};
ghost use Rattle.script.specs.Errors.{Gives};

use crate::command::StopAt;
use crate::digits::{number, unhex};
use crate::error::LineError;
use std::alloc::Global;

// The number that stands as the word at `place` of the line.
fn number_at(word: &[u8], place: u8) -> Result<u64, LineError>
    ensures { result ≡ number_at place word.now }
{
    number(word).ok_or(LineError::NotNumber(place))
}

pub fn nothing(words: &[&[u8]]) -> Result<(), LineError>
    ensures { result ≡ nothing (map (λ w. w.now) words.now) }
{
    match words {
        [] => Ok(()),
        _ => Err(LineError::TooManyWords),
    }
}

// Three, and no `numbers::<N>`: that gives an array, what a closure makes of an array is not known to the proof of `command`, and with a `let` in each arm
// that function would be twice as long.
pub fn one_number(words: &[&[u8]]) -> Result<u64, LineError>
    ensures { result ≡ one_number (map (λ w. w.now) words.now) }
{
    match words {
        [] => Err(LineError::MissingWord),
        [a] => number_at(a, 2),
        _ => Err(LineError::TooManyWords),
    }
}

pub fn two_numbers(words: &[&[u8]]) -> Result<(u64, u64), LineError>
    ensures { result ≡ two_numbers (map (λ w. w.now) words.now) }
{
    match words {
        [] | [_] => Err(LineError::MissingWord),
        [a, b] => Ok((number_at(a, 2)?, number_at(b, 3)?)),
        _ => Err(LineError::TooManyWords),
    }
}

pub fn three_numbers(words: &[&[u8]]) -> Result<(u64, u64, u64), LineError>
    ensures { result ≡ three_numbers (map (λ w. w.now) words.now) }
{
    match words {
        [] | [_] | [_, _] => Err(LineError::MissingWord),
        [a, b, c] => Ok((number_at(a, 2)?, number_at(b, 3)?, number_at(c, 4)?)),
        _ => Err(LineError::TooManyWords),
    }
}

// A number and bytes. The bytes may be left out: then there are none.
pub fn number_and_bytes(heap: Global, words: &[&[u8]]) -> Result<(u64, Vec<u8>), LineError>
    ensures { Gives (Unit {0}) with_items (number_and_bytes (map (λ w. w.now) words.now)) result }
{
    match words {
        [] => Err(LineError::MissingWord),
        [n] => Ok((number_at(n, 2)?, Vec::new(heap))),
        [n, hex] => {
            let n = number_at(n, 2)?;
            Ok((n, unhex(heap, hex)?))
        }
        _ => Err(LineError::TooManyWords),
    }
}

// The words after `give`.
pub fn give_up(words: &[&[u8]]) -> Result<u64, LineError>
    ensures { result ≡ give_up (map (λ w. w.now) words.now) }
{
    match words {
        [] | [_] => Err(LineError::MissingWord),
        [b"up", object] => number_at(object, 3),
        [_, _] => Err(LineError::UnknownCommand),
        _ => Err(LineError::TooManyWords),
    }
}

pub fn stop_at(words: &[&[u8]]) -> Result<StopAt, LineError>
    ensures { result ≡ stop_at (map (λ w. w.now) words.now) }
{
    match words {
        [] => Err(LineError::MissingWord),
        [b"old"] => Ok(StopAt::FileOld),
        [b"new"] => Ok(StopAt::FileNew),
        [slot] => match number_at(slot, 2)? {
            0 => Ok(StopAt::Now),
            slot => Ok(StopAt::Slot(slot)),
        },
        _ => Err(LineError::TooManyWords),
    }
}
