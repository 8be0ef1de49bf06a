// The region table of (p,T) (specs/Places.antt).
ghost use Rattle.std.specs.Prelude.{◌≡◌};
ghost use Rattle.places.specs.Places.{beside_of, above_of, table_of, place_pt};

use crate::limits::{P_HOUSE, P_MOST, P_MOST_5, T273, T863, T1073, T2273};
use crate::ranges::{outside, wild};
use equations::Equation;
use refusals::Refusal;
use saturation_line::{SaturationPressure, ps};

// The equation at p up to 623.15 K: of region 1 from the saturation pressure on, of region 2 below it.
fn beside(p: f64, saturated: f64) -> Equation
    ensures { result ≡ beside_of p saturated }
{
    if saturated <= p {
        Equation::Region1
    } else {
        Equation::Region2
    }
}

// The region table of (p,T) above 623.15 K.
fn above(p: f64, t: f64) -> Result<Equation, Refusal>
    ensures { result ≡ above_of p t }
{
    if t <= T863 {
        if p <= boundaries::p_b23(t) {
            return Ok(Equation::Region2);
        }
        return Ok(Equation::Region3);
    }
    if t <= T1073 {
        return Ok(Equation::Region2);
    }
    if p <= P_MOST_5 {
        return Ok(Equation::Region5);
    }
    Err(Refusal::AboveRegion5)
}

// The region table of (p,T), for a p and a T in its range.
#[tactic(auto, unfolding(crate::specs::Places::table_of))]
fn table(p: f64, t: f64) -> Result<Equation, Refusal>
    ensures { result ≡ table_of p t }
{
    match ps(t) {
        Some(SaturationPressure::UpTo623(saturated)) => Ok(beside(p, saturated)),
        Some(SaturationPressure::Above623(_)) => above(p, t),
        None => above(p, t),
    }
}

// The equation of (p,T), or the refusal.
pub fn place_pt(p: f64, t: f64) -> Result<Equation, Refusal>
    ensures { result ≡ place_pt p t }
{
    if wild(p, t) {
        return Err(Refusal::NotFinite);
    }
    if outside(P_HOUSE, P_MOST, p) {
        return Err(Refusal::Pressure);
    }
    if outside(T273, T2273, t) {
        return Err(Refusal::Temperature);
    }
    table(p, t)
}
