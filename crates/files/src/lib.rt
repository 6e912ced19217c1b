// The file end: drives and the keeper's own file as files, and the text file that says where the drives lie.
#![tactic(auto)]

mod beside;
mod disks;
mod disks_ops;
mod ended;
mod opening;
mod record;
mod setup;
mod starting;

pub use beside::{in_dir, sync_dir, told};
pub use disks::FileDisks;
pub use ended::Ended;
pub use opening::{load, make, open_disks};
pub use setup::{Setup, SetupError};
pub use starting::bring_up;
