// Arithmetic on f64: whole powers, the f64 of any 64 bits, finiteness. Every call takes every number and
// ends; what it answers is said in specs/.
#![tactic(auto)]

mod bits;
mod powers;

pub use bits::{float_of, is_finite};
pub use powers::power;
