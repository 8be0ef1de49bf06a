// The properties of a single-phase state, and how they come from γ in regions 1, 2 and 5: 002, Tables 2
// and 4 (specs/Properties.antt). Every call takes every number; what it answers is said in specs/.
// Units: p in MPa, T in K, v in m³/kg, u and h in kJ/kg, s and cp in kJ/(kg K), w in m/s.
#![tactic(auto)]

mod basic;
mod gibbs;

pub use basic::{Basic, Gamma};
pub use gibbs::{enthalpy, entropy, from_gamma, reduced, rooted};

// A pressure and a temperature as a region reads them: with its gas constant R and the reduced
// pressure π and temperature τ.
#[derive(Clone, Copy)]
pub struct Point {
    pub r: f64,
    pub p: f64,
    pub t: f64,
    pub pi: f64,
    pub tau: f64,
}

// The six properties of a single-phase state.
#[derive(Clone, Copy)]
pub struct State {
    pub v: f64,
    pub u: f64,
    pub h: f64,
    pub s: f64,
    pub cp: f64,
    pub w: f64,
}

// The same with w squared, in m²/s²: whoever does not take the speed of sound spares its root.
#[derive(Clone, Copy)]
pub struct Unrooted {
    pub v: f64,
    pub u: f64,
    pub h: f64,
    pub s: f64,
    pub cp: f64,
    pub ww: f64,
}

// How the volume answers to heat and pressure: the thermal expansion α in 1/K and the isothermal
// compressibility κ in 1/kPa.
#[derive(Clone, Copy)]
pub struct Response {
    pub alpha: f64,
    pub kappa: f64,
}

// How the pressure answers to heat and volume: the relative pressure coefficient α in 1/K and the
// isothermal stress coefficient β in kg/m³, with the isochoric heat capacity cv in kJ/(kg K).
#[derive(Clone, Copy)]
pub struct PressureResponse {
    pub alpha: f64,
    pub beta: f64,
    pub cv: f64,
}
