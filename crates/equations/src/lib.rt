// The basic equations by the regions that they belong to, and the phases that backward equations reach
// (specs/Equations.antt).
#![tactic(auto)]

mod names;

pub use names::{equation_of, is_of, region_of};

// The basic equation that a state of one phase is worked by: that of a region.
#[derive(Clone, Copy, Debug, PartialEq, Eq)]
pub enum Equation {
    Region1,
    Region2,
    Region3,
    Region5,
}

// The phases that backward equations reach: liquid is worked in region 1, vapour in region 2.
#[derive(Clone, Copy, Debug, PartialEq, Eq)]
pub enum Phase {
    Liquid,
    Vapour,
}
