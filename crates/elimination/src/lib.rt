// Polynomials over bytes, and their coefficients worked out of their values by elimination.
#![tactic(auto)]

ghost use Rattle.std.specs.Prelude.{◌≡◌, ◌*◌, ◌<◌, length, IfOk, MatchResult};
ghost use Rattle.elimination.specs.Interpolation.{number, repeated, reason, Interpolates, Solved};
ghost use Rattle.elimination.specs.Polynomial.{Distinct, Determined};
ghost use Rattle.elimination.specs.declared.Unsolved.TheVariants.{NoMemory};

mod building;
mod matrix;
mod reduction;
mod rows;

use matrix::Matrix;
use std::alloc::{AllocError, Global};

// Why no polynomials came out.
#[derive(Clone, Copy, PartialEq, Eq, Debug)]
pub enum Unsolved {
    NoPoints,
    // The values are not the same number at each point.
    Uneven,
    SamePoint,
    NoMemory,
}

impl From<AllocError> for Unsolved {
    ghost from_gives = { λ _ r. r ≡ NoMemory };

    fn from(_e: AllocError) -> Unsolved {
        Unsolved::NoMemory
    }
}

fn has_repeat(points: &[u8]) -> bool
    ensures { result ≡ repeated points.now }
{
    let mut left = points;
    while let Some((x, behind)) = left.split_first() {
        if behind.contains(x) {
            return true;
        }
        left = behind;
    }
    false
}

// The polynomials with these values at these points, which differ. Of memory it takes the matrix, one row more and the coefficients.
fn solve(heap: Global, points: &[u8], values: &[u8], width: usize) -> Result<Vec<u8>, AllocError>
    requires { (0 < length points.now) × ((length values.now ≡ length points.now * width) × (Distinct points.now)) }
    ensures { IfOk result (λ v. Interpolates points.now values.now v.items) }
{
    let mut m = Matrix::of(heap, points, values, width)?;
    m.reduce();
    m.further_columns(heap, values.len())
}

// Works polynomials out of their values. `values` has, point after point, the value of each polynomial there; what comes out has, polynomial after polynomial,
// as many coefficients as there are points, that of x to the 0 first.
pub fn interpolate(heap: Global, points: &[u8], values: &[u8]) -> Result<Vec<u8>, Unsolved>
    ensures { MatchResult result (λ v. Solved points.now values.now v.items)
        (λ e. number e ≡ reason points.now values.now) }
{
    let k = points.len();
    if k == 0 {
        return Err(Unsolved::NoPoints);
    }
    if values.len() % k != 0 {
        return Err(Unsolved::Uneven);
    }
    if has_repeat(points) {
        return Err(Unsolved::SamePoint);
    }
    Ok(solve(heap, points, values, values.len() / k)?)
}

// Polynomials with so many coefficients are determined by their values at so many different points.
pub fn determined_stands() -> u8
    ensures { Determined }
{
    0
}
