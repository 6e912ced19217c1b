// What a command is answered, as a line.
use crate::many::Healed;
use keeper::object::Answer;
use keeper::refusal::Refusal;
use std::alloc::{AllocError, Global};
use std::fmt;

#[derive(Drop)]
pub enum Reply {
    // by its number; want of memory has none, and `play` tells it as a fault
    Refused(Refusal),
    Done,
    Version(u64),
    // the version that counts, and its bytes in hexadecimal
    Has { version: u64, hex: String },
    Nothing,
    // so many pieces went, or were made
    Pieces(usize),
    // settling found a version, and writes it anew as another
    Found { version: u64, anew: u64 },
    Unknown,
    Healed(Healed),
    // not a command of this program
    NotHere,
}

impl fmt::Display for Reply {
    fn fmt<W: fmt::Write>(&self, f: &mut fmt::Formatter<W>) -> fmt::Result {
        match self {
            Reply::Refused(why) => write_refusal(f, *why),
            Reply::Done => f.write_str("ok"),
            Reply::Version(version) => write!(f, "ok version {version}"),
            Reply::Has { version, hex } => write_object(f, *version, hex.as_str()),
            Reply::Nothing => f.write_str("ok none"),
            Reply::Pieces(pieces) => write!(f, "ok {pieces}"),
            Reply::Found { version, anew } => write!(f, "ok found {version} version {anew}"),
            Reply::Unknown => f.write_str("ok unknown"),
            Reply::Healed(healed) => write!(f, "ok {healed}"),
            Reply::NotHere => f.write_str("error: unknown command"),
        }
    }
}

impl fmt::Display for Healed {
    fn fmt<W: fmt::Write>(&self, f: &mut fmt::Formatter<W>) -> fmt::Result {
        let Healed { tidied, mended } = *self;
        write!(f, "tidied {tidied} mended {mended}")
    }
}

fn write_refusal<W: fmt::Write>(f: &mut fmt::Formatter<W>, why: Refusal) -> fmt::Result {
    let number = why.number();
    write!(f, "refused {number}")
}

// An empty object's line ends with its version.
fn write_object<W: fmt::Write>(f: &mut fmt::Formatter<W>, version: u64, hex: &str) -> fmt::Result {
    if hex.is_empty() {
        write!(f, "ok version {version}")
    } else {
        write!(f, "ok version {version} {hex}")
    }
}

// What is told of a step's answer.
pub fn reply_to(heap: Global, answer: Answer) -> Result<Reply, AllocError> {
    match answer {
        Answer::Done => Ok(Reply::Done),
        Answer::Version(version) => Ok(Reply::Version(version)),
        Answer::Has(version, bytes) => Ok(Reply::Has {
            version,
            hex: script::hex(heap, &bytes)?,
        }),
        Answer::Nothing => Ok(Reply::Nothing),
        Answer::Removed(pieces) => Ok(Reply::Pieces(pieces)),
        Answer::Mended(pieces) => Ok(Reply::Pieces(usize::from(pieces))),
        Answer::Found(version, anew) => Ok(Reply::Found { version, anew }),
        Answer::Unknown => Ok(Reply::Unknown),
    }
}
