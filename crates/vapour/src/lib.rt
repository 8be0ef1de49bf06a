// What the basic equations of vapour in IAPWS-IF97 (002) share, regions 2 and 5: γ is made of an ideal-gas
// part and a residual part, and the formulas around it are the same. Every call takes every number; what it
// answers is said in specs/.
#![tactic(auto)]

mod parts;
mod vapours;

pub use parts::{Parts, gamma_at, h_at, s_at};
pub use vapours::{added, gibbs};

// γ = γ° + γʳ with its derivatives γπ, γτ and γττ, and the residual part's γʳπ, γʳππ and γʳπτ.
#[derive(Clone, Copy)]
pub struct Vapour {
    pub g: f64,
    pub gp: f64,
    pub gt: f64,
    pub gtt: f64,
    pub rp: f64,
    pub rpp: f64,
    pub rpt: f64,
}
