// The public face of the formulation: region, state and derivatives of water and steam from (p,T),
// (p,h), (p,s) or (h,s), and the saturation pressure at T, or the refusal. Every call takes every number;
// what it answers is said in specs/. Units: p in MPa, T in K, v in m³/kg, u and h in kJ/kg, s and cp in
// kJ/(kg K), w in m/s.
#![tactic(auto)]

mod candidates;
mod derived;
mod kinds;
mod outcomes;
mod queries;

pub use derived::quotient;
pub use queries::{from_hs, from_ph, from_ps, from_pt, query};
pub use saturation_reply::saturation;
