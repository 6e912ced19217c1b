// Lines to commands, and bytes to hexadecimal text: what every program here reads and writes.
#![tactic(auto)]

mod arguments;
mod command;
mod digits;
mod error;
mod reader;
mod words;

pub use command::{Command, StopAt};
pub use digits::{hex, number};
pub use error::LineError;
pub use reader::parse;
