// The saturation line, region 4 of IAPWS-IF97 (002): the saturation pressure, which tells where it stands,
// and the saturation temperature. Every call takes every number; what it answers is said in specs/. p in
// MPa, T in K.
#![tactic(auto)]

mod pressure;
mod printed;

pub use pressure::ps;
pub use printed::ts;

// The saturation pressure in MPa at a T of the line, told apart by T alone: from 273.15 up to 623.15 K,
// where the line parts regions 1 and 2; above that, up to the critical 647.096 K, where it goes on into
// region 3. At any other T there is none, and whoever asks has `None` to deal with.
#[derive(Clone, Copy)]
pub enum SaturationPressure {
    UpTo623(f64),
    Above623(f64),
}
