// The keeper on drives: what a step needs is read, its effects are done one by one, and its answer is told as a line.
#![tactic(auto)]

mod archive;
mod count;
mod disks;
mod entry;
mod fault;
mod holding;
mod many;
mod perform;
mod play;
mod reply;
mod sizes;

pub use archive::Archive;
pub use count::{Count, Kept};
pub use disks::Disks;
pub use entry::entry_at;
pub use fault::{Failure, Fault};
pub use holding::holds_any;
pub use many::Healed;
pub use perform::perform_all;
pub use reply::Reply;
pub use sizes::{Sizes, SizesError};
