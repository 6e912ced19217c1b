// Arithmetic with bytes in which every byte but 0 can be divided by.
#![tactic(auto)]

mod field;
mod scaled;

pub use field::{field_stands, inverse, product, quotient, sum};
pub use scaled::add_scaled;
