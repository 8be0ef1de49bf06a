// The basic equation of region 3 of IAPWS-IF97 (002), water and steam about the critical point, from
// density and T; and the density at p and T. Every call takes every number; what it answers is said in
// specs/. Units: density in kg/m³, p in MPa, T in K.
#![tactic(auto)]

mod densities;
mod region3;

pub use densities::density;
pub use region3::Region3;

// A density and a temperature as region 3 reads them: beside the reduced density δ and temperature τ.
#[derive(Clone, Copy)]
pub struct DensePoint {
    pub density: f64,
    pub t: f64,
    pub delta: f64,
    pub tau: f64,
}

// φ of region 3 and its derivatives by δ and τ.
#[derive(Clone, Copy)]
pub struct Dense {
    pub f: f64,
    pub fd: f64,
    pub fdd: f64,
    pub ft: f64,
    pub ftt: f64,
    pub fdt: f64,
}
