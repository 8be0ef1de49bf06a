// The basic equation of region 1 of IAPWS-IF97 (002), liquid water from p and T. Every call takes every
// number; what it answers is said in specs/.
#![tactic(auto)]

mod region1;

pub use region1::Region1;

// γ of region 1 and its derivatives by π and τ.
#[derive(Clone, Copy)]
pub struct Liquid {
    pub g: f64,
    pub gp: f64,
    pub gpp: f64,
    pub gt: f64,
    pub gtt: f64,
    pub gpt: f64,
}
