// A drive: four slots for each object, read and written through lent parts; and which of the drives are in.
#![tactic(auto)]

mod laws;
mod layout;
mod piece;
mod rule;
mod states;
mod view;

pub use laws::{readings_stand, slots_apart, views_stand};
pub use layout::{OBJECTS, PLACES, sizes, slot_start};
pub use piece::{Unwritten, find_piece, place_for, take_away, write_piece};
pub use rule::Rule;
pub use states::{Drives, how_many};
pub use view::{place_in, versions};
