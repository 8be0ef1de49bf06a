// Slopes of a single-phase state by 001: how p, T, v, u, h, s, g and f change with each of the two
// variables that a basic equation takes, and from these the derivative of any of them by another at a
// constant third. Every call takes every number; what it answers is said in specs/.
#![tactic(auto)]

mod answers;
mod numbers;
mod ratios;
mod tables;

pub use answers::value;
pub use numbers::all_known;
pub use ratios::quotient;
pub use tables::{by_p_and_t, by_v_and_t};

// How each property changes with one variable while the other is held constant.
#[derive(Clone, Copy)]
pub struct Row {
    pub p: f64,
    pub t: f64,
    pub v: f64,
    pub u: f64,
    pub h: f64,
    pub s: f64,
    pub g: f64,
    pub f: f64,
}

// The two rows of slopes of a state: by the first variable of its equation, and by the second. Which
// two they are has no part in a derivative.
#[derive(Clone, Copy)]
pub struct Slopes {
    pub first: Row,
    pub second: Row,
}
