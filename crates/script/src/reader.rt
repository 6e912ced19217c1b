// From a line to its command.
ghost use Rattle.std.specs.Prelude.{◌≡◌, true, map};
ghost use Rattle.std.specs.Option.{option_map};
ghost use Rattle.script.specs.Errors.{Gives};
ghost use Rattle.script.specs.Meaning.{is_comment, order_of, asked, Asks, AsksMemory, meaning};
ghost use Rattle.script.specs.Orders.{shown};
ghost use Rattle.script.specs.Verbs.{takes_bytes};

use crate::arguments::{
    give_up, nothing, number_and_bytes, one_number, stop_at, three_numbers, two_numbers,
};
use crate::command::{Command, Verb, verb_of};
use crate::error::LineError;
use crate::words::{present, split};
use std::alloc::Global;

// The command that `verb` gives with the words after it.
fn command(heap: Global, verb: Verb, words: &[&[u8]]) -> Result<Command, LineError>
    ensures { Gives (takes_bytes verb ≡ true) shown (order_of verb (map (λ w. w.now) words.now)) result }
{
    match verb {
        Verb::Begin => number_and_bytes(heap, words).map(|(object, bytes)| Command::Begin {
            object,
            bytes,
        }),
        Verb::Put => number_and_bytes(heap, words).map(|(object, bytes)| Command::Put {
            object,
            bytes,
        }),
        Verb::Write => two_numbers(words).map(|(object, drive)| Command::Write { object, drive }),
        Verb::Tidy => two_numbers(words).map(|(object, drive)| Command::Tidy { object, drive }),
        Verb::Mend => two_numbers(words).map(|(object, drive)| Command::Mend { object, drive }),
        Verb::Finish => one_number(words).map(|object| Command::Finish { object }),
        Verb::Read => one_number(words).map(|object| Command::Read { object }),
        Verb::Settle => one_number(words).map(|object| Command::Settle { object }),
        Verb::Sweep => one_number(words).map(|drive| Command::Sweep { drive }),
        Verb::Out => one_number(words).map(|drive| Command::Out { drive }),
        Verb::In => one_number(words).map(|drive| Command::In { drive }),
        Verb::Wipe => one_number(words).map(|drive| Command::Wipe { drive }),
        Verb::Heal => nothing(words).map(|()| Command::Heal),
        Verb::Count => nothing(words).map(|()| Command::Count),
        Verb::Show => nothing(words).map(|()| Command::Show),
        Verb::Spoil => three_numbers(words).map(|(drive, object, version)| Command::Spoil {
            drive,
            object,
            version,
        }),
        Verb::Give => give_up(words).map(|object| Command::GiveUp { object }),
        Verb::Stop => stop_at(words).map(Command::Stop),
    }
}

// The command of a line's words; None where there are none.
fn asked(heap: Global, words: &[&[u8]]) -> Result<Option<Command>, LineError>
    ensures { let ws = map (λ w. w.now) words.now in Gives (Asks ws) (option_map shown) (asked ws) result }
{
    let [name, words @ ..] = words else {
        return Ok(None);
    };
    let verb = verb_of(name).ok_or(LineError::UnknownCommand)?;
    Ok(Some(command(heap, verb, words)?))
}

fn is_comment(line: &[u8]) -> bool
    ensures { result ≡ is_comment line.now }
{
    matches!(line, [b'#', ..])
}

// The command of `line`; None where it has no words, or begins with '#'.
// Numbers too large for 64 bits are taken as the largest. Memory is asked for only by `begin` and `put`.
pub fn parse(heap: Global, line: &[u8]) -> Result<Option<Command>, LineError>
    ensures { Gives (AsksMemory line.now) (option_map shown) (meaning line.now) result }
{
    if is_comment(line) {
        return Ok(None);
    }
    asked(heap, present(&split(line)))
}
