// What the keeper's file says.
ghost use Rattle.std.specs.Prelude.{◌≡◌, vec_len};

// The number that is above every number used, and a bar for each object.
#[derive(Drop)]
pub struct Page {
    pub number: u64,
    pub bars: Vec<u64>,
    ghost sized: { vec_len bars ≡ 256 },
}
