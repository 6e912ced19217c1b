// How many pieces give an object back.
ghost use Rattle.std.specs.Prelude.{◌≡◌, ◌<◌, ◌≤◌, MatchResult};
ghost use Rattle.pieces.specs.Given.{IsNeed};
ghost use Rattle.pieces.specs.declared.errors.PieceError.TheVariants.{NeedOutOfRange};

use crate::errors::PieceError;
use crate::making::LAST;

// 1 to 31 pieces; and so many bytes does a row have.
#[derive(Clone, Copy)]
pub struct Need {
    pub count: usize,
    ghost in_range: { (0 < count) × (count ≤ 31) },
}

impl Need {
    pub fn new(need: u8) -> Result<Need, PieceError>
        ensures { MatchResult result (λ n. n.count ≡ need) (λ e. (e ≡ NeedOutOfRange) × (IsNeed need → ⊥)) }
    {
        if need == 0 || need > LAST {
            return Err(PieceError::NeedOutOfRange);
        }
        let count = usize::from(need);
        Ok(Need { count })
    }
}
