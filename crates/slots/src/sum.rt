// Adler's sum.
ghost use Rattle.std.specs.Prelude.{◌≡◌, ◌<◌, ◌≤◌, length};
ghost use Rattle.slots.specs.Adler.{adler as adler_of};
ghost use Rattle.slots.specs.Sums.{Carried};

const MODULUS: u32 = 65_521;

// How many bytes are added up before the sums are reduced: few enough for 32 bits, many enough for the reducing to cost nothing.
const BLOCK: usize = 2048;

// Adler's sum of bytes.
#[tactic(auto, unfolding(crate::specs::Adler::sums, crate::specs::Adler::adler))]
pub fn adler(bytes: &[u8]) -> u32
    ensures { result ≡ adler_of bytes.now }
{
    let mut first = 1;
    let mut second = 0;
    for block in bytes.chunks(BLOCK) {
        (first, second) = add_block(first, second, block);
    }
    second * 65_536 + first
}

// The two sums with a block's bytes added, reduced once at its end.
#[tactic(auto, using(crate::proofs::Adding::onward_more))]
fn add_block(first: u32, second: u32, block: &[u8]) -> (u32, u32)
    requires { (first < 65521) × ((second < 65521) × (length block.now ≤ 2048)) }
    ensures { Carried first second block.now result.0 result.1 }
{
    let mut a = first;
    let mut b = second;
    for x in block {
        a += u32::from(*x);
        b += a;
    }
    (a % MODULUS, b % MODULUS)
}
