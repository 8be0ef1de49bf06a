// What an equation gives at p and T: the properties of a state and its slopes, the derivative made of
// these, and one property alone. Every call takes every number; what it answers is said in specs/. Units:
// p in MPa, T in K, v in m³/kg, u and h in kJ/kg, s and cp in kJ/(kg K).
#![tactic(auto)]

mod worked;

pub use worked::{Worked, given_of, property, quotient_at, worked_at};

// Which property a query gives beside p.
#[derive(Clone, Copy)]
pub enum Given {
    Enthalpy,
    Entropy,
}
