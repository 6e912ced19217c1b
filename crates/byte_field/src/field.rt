// Sums, products and quotients of single bytes, by exclusive ors, shifts and masks.
ghost use Rattle.std.specs.Prelude.{◌≡◌, ◌/◌, ◌%◌, ◌^◌, ◌<◌, if◌then◌else◌, nat_eq};
ghost use Rattle.byte_field.specs.Byte.{add, twice, mul, fourth, inv, inverse_of, quotient_of};
ghost use Rattle.byte_field.specs.Field.{Field};

// The bits of x^4 + x^3 + x + 1, which is what x^8 comes to. (With x^8 itself the polynomial is 0x11b.)
const POLYNOMIAL: u8 = 0x1b;

#[tactic(auto, using(crate::proofs::Sums::byte_xor))]
pub fn sum(a: u8, b: u8) -> u8
    ensures { result ≡ add a b }
{
    a ^ b
}

// `byte` if the bit of `number` at that place is set, else 0. Without a branch, so that a loop over many bytes can be made wide.
#[tactic(auto, using(crate::proofs::Masks::masked))]
fn where_bit(number: u8, place: u8, byte: u8) -> u8
    requires { place < 8 }
    ensures { result ≡ (if nat_eq (number / 2 ^ place % 2) 1 then byte else 0) }
{
    let bit = number >> place & 1;
    byte & bit * 0xff
}

// `byte` times x.
#[tactic(auto, using(crate::proofs::Masks::shifted))]
fn doubled(byte: u8) -> u8
    ensures { result ≡ twice byte }
{
    byte << 1 ^ where_bit(byte, 7, POLYNOMIAL)
}

// The sum of `a` times x^i over the bits i of `b`.
pub fn product(a: u8, b: u8) -> u8
    ensures { result ≡ mul a b }
{
    let mut total = 0;
    let mut shifted = a;
    for i in 0..8u8 {
        total = sum(total, where_bit(b, i, shifted));
        shifted = doubled(shifted);
    }
    total
}

#[tactic(auto, unfolding(crate::specs::Byte::fourth))]
fn fourth_power(a: u8) -> u8
    ensures { result ≡ fourth a }
{
    let square = product(a, a);
    product(square, square)
}

// The 254th power of `a`, by eleven products.
#[tactic(auto, unfolding(crate::specs::Byte::inv))]
fn power_254(a: u8) -> u8
    ensures { result ≡ inv a }
{
    let second = product(a, a);
    let third = product(second, a);
    let twelfth = fourth_power(third);
    let fifteenth = product(twelfth, third);
    product(
        fourth_power(fourth_power(fifteenth)),
        product(twelfth, second),
    )
}

// What times `a` is 1: the 254th power, since the 255th of every byte but 0 is 1. `None` for 0, which has no inverse.
pub fn inverse(a: u8) -> Option<u8>
    ensures { result ≡ inverse_of a }
{
    if a == 0 {
        return None;
    }
    Some(power_254(a))
}

// What times `b` is `a`; `None` where `b` is 0.
pub fn quotient(a: u8, b: u8) -> Option<u8>
    ensures { result ≡ quotient_of a b }
{
    Some(product(a, inverse(b)?))
}

// The theorem that bytes are a field stands on this function's contract.
pub fn field_stands() -> u8
    ensures { Field }
{
    0
}
