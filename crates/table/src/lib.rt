// The keeper of all objects: the table of their states, the steps on each, and the keeper's file.
#![tactic(auto)]

mod calls;
mod file;
mod objects;
mod page;
mod starting;
mod table;

pub use file::{decode, encode, file_reads};
pub use objects::table_stands;
pub use page::Page;
pub use table::Keeper;
