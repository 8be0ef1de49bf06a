// States: that of a basic equation at p and T with the mark whether it comes back to what was asked, and
// the wet states between saturated liquid and vapour. Every call takes every number; what it answers is
// said in specs/. Units: p in MPa, T in K, v in m³/kg, u and h in kJ/kg, s and cp in kJ/(kg K), w in m/s.
#![tactic(auto)]

mod marks;
mod mixing;

use equations::Equation;
pub use marks::{both_near, carried, handed_out, marked, state_at};
pub use mixing::wet_at;
use properties::State;
use workings::Worked;

// A state of one phase, with the mark whether the forward equations come back to what was asked.
#[derive(Clone, Copy)]
pub struct Single {
    pub equation: Equation,
    pub p: f64,
    pub t: f64,
    pub state: State,
    pub verified: bool,
}

// A state as it is carried until it is handed out or derived.
#[derive(Clone, Copy)]
pub struct Full {
    pub equation: Equation,
    pub p: f64,
    pub t: f64,
    pub worked: Worked,
    pub verified: bool,
}

// A wet state of quality x, which has no cp and no w.
#[derive(Clone, Copy)]
pub struct Wet {
    pub p: f64,
    pub t: f64,
    pub v: f64,
    pub u: f64,
    pub h: f64,
    pub s: f64,
    pub x: f64,
    pub verified: bool,
}
