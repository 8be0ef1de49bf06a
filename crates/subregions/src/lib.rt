// Which of the subregions 2a, 2b and 2c of region 2 a state lies in (002 and 003), and the boundary
// between 2a and 2b (003). Every call takes every number; what it answers is said in specs/. Units:
// p in MPa, h in kJ/kg, s in kJ/(kg K).
#![tactic(auto)]

mod h2ab;
mod subregion;

pub use h2ab::h_2ab;
pub use subregion::Subregion;
