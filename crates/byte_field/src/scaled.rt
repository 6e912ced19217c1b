// Whole rows of bytes: the one loop that making pieces and working them out spend their time in.
ghost use Rattle.std.specs.Prelude.{◌≡◌};
ghost use Rattle.byte_field.specs.Slices.{add_scaled};

use crate::field::{product, sum};

// Adds `factor` times `src` to `dst`, as far as both go; what `dst` has past the end of `src` stays as it is.
pub fn add_scaled(dst: &mut [u8], factor: u8, src: &[u8])
    ensures { dst.new ≡ add_scaled factor dst.old src.now }
{
    // By index, since after `iter_mut().zip(..)` a proof knows nothing of what was written.
    let shared = dst.len().min(src.len());
    for i in 0..shared {
        dst[i] = sum(dst[i], product(factor, src[i]));
    }
}
