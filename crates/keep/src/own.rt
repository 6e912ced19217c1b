// The lines that only `keep` has.
use script::LineError;

#[derive(Clone, Copy, PartialEq, Eq, Debug)]
pub enum Own<'a> {
    SettleAll,
    New { drive: u64 },
    PutFile { object: u64, path: &'a str },
    ReadFile { object: u64, path: &'a str },
}

fn number(word: &str) -> Result<u64, LineError> {
    script::number(word.as_bytes()).ok_or(LineError::NotNumber(2))
}

// A number, and the rest of the line as a path.
fn number_and_path(rest: &str) -> Result<(u64, &str), LineError> {
    let (word, path) = rest.split_once(' ').ok_or(LineError::MissingWord)?;
    Ok((number(word)?, path.trim_matches(' ')))
}

fn new_drive(rest: &str) -> Result<u64, LineError> {
    if rest.is_empty() {
        return Err(LineError::MissingWord);
    }
    if rest.split_once(' ').is_some() {
        Err(LineError::TooManyWords)
    } else {
        number(rest)
    }
}

// What a line asks for, where it is one of these.
pub fn own_command(line: &str) -> Result<Option<Own<'_>>, LineError> {
    let line = line.trim_matches(' ');
    let (name, rest) = line.split_once(' ').unwrap_or((line, ""));
    let rest = rest.trim_matches(' ');
    match name {
        "settle" => Ok((rest == "all").then_some(Own::SettleAll)),
        "new" => Ok(Some(Own::New {
            drive: new_drive(rest)?,
        })),
        "putfile" => {
            let (object, path) = number_and_path(rest)?;
            Ok(Some(Own::PutFile { object, path }))
        }
        "readfile" => {
            let (object, path) = number_and_path(rest)?;
            Ok(Some(Own::ReadFile { object, path }))
        }
        _ => Ok(None),
    }
}
