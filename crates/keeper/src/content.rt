// An object's content, taken from bytes.
ghost use Rattle.std.specs.Prelude.{vec_items};
ghost use Rattle.keeper.specs.Shown.{Fitting};

use crate::refusal::Refusal;
use crate::writing::Content;
use pieces::MAX;

impl TryFrom<Vec<u8>> for Content {
    type Error = Refusal;

    ghost try_from_gives = { λ bytes r. Fitting (vec_items bytes) r };

    fn try_from(bytes: Vec<u8>) -> Result<Content, Refusal> {
        if bytes.len() > MAX {
            return Err(Refusal::TooLong);
        }
        Ok(Content { bytes })
    }
}
