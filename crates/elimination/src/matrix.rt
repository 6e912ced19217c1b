// A matrix of bytes.
ghost use Rattle.std.specs.Prelude.{◌≡◌, ◌*◌, vec_len};

// Row after row in one vector, and beside them room for the copy of a row, which other rows get added.
#[derive(Drop)]
pub struct Matrix {
    pub cells: Vec<u8>,
    pub rows: usize,
    pub width: usize,
    pub copied: Vec<u8>,
    ghost cells_fit: { vec_len cells ≡ rows * width },
    ghost copied_fits: { vec_len copied ≡ width },
}
