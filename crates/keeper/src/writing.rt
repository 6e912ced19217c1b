// An object's bytes, and a writing of them that was begun and isn't finished.
ghost use Rattle.std.specs.Prelude.{◌≤◌, vec_len};

// The bytes of an object: no more than it may have.
#[derive(Drop)]
pub struct Content {
    pub bytes: Vec<u8>,
    ghost short: { vec_len bytes ≤ 65536 },
}

// A writing leads from one version to another, which has this content.
#[derive(Drop)]
pub struct Writing {
    pub from: u64,
    pub to: u64,
    pub content: Content,
}
