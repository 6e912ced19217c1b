// The table of all objects.
ghost use Rattle.std.specs.Prelude.{◌≡◌, ◌<◌, ◌≤◌, vec_len};

use drives::Drives;
use keeper::object::{Known, Numbers};

// What is known of an object, and the version below which nothing of it counts any more.
#[derive(Drop)]
pub struct Row {
    pub(crate) known: Known,
    pub(crate) bar: u64,
}

// How many pieces give an object back, which drives are in, a row for each object, and the numbers that all objects share.
#[derive(Drop)]
pub struct Keeper {
    pub(crate) need: u8,
    pub(crate) drives: Drives,
    pub(crate) rows: Vec<Row>,
    pub(crate) numbers: Numbers,
    ghost some: { 0 < need },
    ghost few: { need ≤ 31 },
    ghost objects: { vec_len rows ≡ 256 },
}
