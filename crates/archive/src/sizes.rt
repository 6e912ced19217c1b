// How many drives there are, and how many of them give an object back.
ghost use Rattle.std.specs.Prelude.{◌≡◌};
ghost use Rattle.archive.specs.Sizes.{sizes_of};

use std::fmt;

#[derive(Clone, Copy, PartialEq, Eq, Debug)]
pub struct Sizes {
    pub drives: u8,
    pub need: u8,
}

#[derive(Clone, Copy, PartialEq, Eq, Debug)]
pub enum SizesError {
    Drives,
    Need,
}

impl fmt::Display for SizesError {
    fn fmt<W: fmt::Write>(&self, f: &mut fmt::Formatter<W>) -> fmt::Result {
        match *self {
            SizesError::Drives => f.write_str(
                "N, the number of drives, must be a number from 2 to 32",
            ),
            SizesError::Need => f.write_str(
                "NEED, the number of drives that give an object back, must be a number from 1 to N - 1",
            ),
        }
    }
}

impl Sizes {
    // The sizes that these digits give; refused where there may not be so many drives, or so many may not be needed.
    pub fn new(drives: &[u8], need: &[u8]) -> Result<Sizes, SizesError>
        ensures { result ≡ sizes_of drives.now need.now }
    {
        let n = script::number(drives).ok_or(SizesError::Drives)?;
        if n < 2 || n > 32 {
            return Err(SizesError::Drives);
        }
        let k = script::number(need).ok_or(SizesError::Need)?;
        if k < 1 || k >= n {
            return Err(SizesError::Need);
        }
        Ok(Sizes {
            drives: n as u8,
            need: k as u8,
        })
    }
}
