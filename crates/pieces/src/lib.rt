// Pieces of an object, one for each drive, and the object worked out of enough of them.
#![tactic(auto)]

mod errors;
mod examining;
mod making;
mod need;
mod reading;
mod rows;
mod solving;
mod working;

pub use errors::PieceError;
pub use making::{LAST, MAX, make};
pub use working::{
    Piece, made_pieces_work, only_one_object, remake, rows_are_determined, work_out,
};
