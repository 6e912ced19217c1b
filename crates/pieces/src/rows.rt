// An object's rows.
ghost use Rattle.std.specs.Prelude.{◌≡◌, ◌%◌, vec_len};

use crate::need::Need;

// Whole rows, one after the other, of as many bytes as pieces are needed: a row's bytes are the coefficients of a polynomial.
#[derive(Drop)]
pub struct Rows {
    pub need: Need,
    pub flat: Vec<u8>,
    ghost whole: { vec_len flat % need.count ≡ 0 },
}
