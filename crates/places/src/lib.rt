// Where a query lies: the equation of (p,T), the side of (p,h) and (p,s), or the refusal; how (p,h) and
// (p,s) stand to the saturation line; and where region 1 ends and region 2 begins at p. Every call takes
// every number; what it answers is said in specs/.
// Units: p in MPa, T in K, h in kJ/kg, s in kJ/(kg K).
#![tactic(auto)]

mod limits;
mod ranges;
mod standings;
mod tables;

use equations::Phase;
pub use limits::{P_TRIPLE, T273, T1073, liquid_end, saturates, vapour_start};
pub use ranges::wild;
pub use standings::{place_py, standing_py};
pub use tables::place_pt;

// Where p and an h or s lie: in one phase, or wet at a temperature in K.
#[derive(Clone, Copy)]
pub enum Side {
    Phase(Phase),
    Wet(f64),
}

// How p and an h or s stand to the saturation line: up to P in one phase beside Ts(p), in K, or wet at it;
// above P, beyond where the line parts regions 1 and 2, in one phase.
#[derive(Clone, Copy)]
pub enum Standing {
    Beside { phase: Phase, saturated: f64 },
    Wet(f64),
    Beyond(Phase),
}
