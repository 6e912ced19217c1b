// That there is a codec such as the keeper's contracts speak of, and what the theorem of the whole comes to with it.
#![tactic(auto)]

ghost use Rattle.codec.specs.Stands.{RealPromise};
ghost use Rattle.codec.specs.WorkOut.{SomeWorksOut};

use recovery::{real_stands, sequel_stands};

// There is a function that works a content out of its pieces, so no contract is true for want of one.
pub fn codec_stands() -> u8
    ensures { SomeWorksOut }
{
    0
}

// What is promised of a store through every run holds of the bytes that the code works with: no codec is left to assume.
pub fn promise_stands() -> u8
    ensures { RealPromise }
{
    let _ = codec_stands();
    let _ = real_stands();
    sequel_stands()
}
