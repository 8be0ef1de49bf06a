// The density at p and T in region 3, by halving (specs/Density.antt).
ghost use Rattle.std.specs.Prelude.{◌≡◌};
ghost use Rattle.dense.specs.Density.{reaches3, first3, halved3, density3};

use crate::Region3;
use brackets::Bracket;
use saturation_line::{SaturationPressure, ps};

// The least and the greatest density in kg/m³ that are sought.
const LEAST: f64 = 50.0;

const MOST: f64 = 800.0;

// The halvings of a bracket.
const HALVINGS: u64 = 60;

// Whether p is at least the saturation pressure, of whichever case; it is not where there is none.
fn reaches(s: Option<SaturationPressure>, p: f64) -> bool
    ensures { result ≡ reaches3 s p }
{
    match s {
        Some(SaturationPressure::UpTo623(saturated)) => saturated <= p,
        Some(SaturationPressure::Above623(saturated)) => saturated <= p,
        None => false,
    }
}

// Where the density lies: below the critical temperature that of liquid, from the saturation pressure
// on, and else that of vapour.
fn first_bracket(p: f64, t: f64) -> Bracket
    ensures { result ≡ first3 p t }
{
    if Region3::T <= t {
        return Bracket {
            lo: LEAST,
            hi: MOST,
        };
    }
    if reaches(ps(t), p) {
        return Bracket {
            lo: Region3::D,
            hi: MOST,
        };
    }
    Bracket {
        lo: LEAST,
        hi: Region3::D,
    }
}

// One halving: the middle becomes the lower end where the pressure there is below the one asked, and
// the upper end otherwise.
#[tactic(auto, unfolding(crate::specs::Density::halved3))]
fn halved(p: f64, t: f64, b: Bracket) -> Bracket
    ensures { result ≡ halved3 p t b }
{
    b.half(Region3::pressure(b.middle(), t) < p)
}

// The density in kg/m³ at p in MPa and T in K: the middle of the last bracket.
pub fn density(p: f64, t: f64) -> f64
    ensures { result ≡ density3 p t }
{
    let mut b = first_bracket(p, t);
    for _ in 0..HALVINGS {
        b = halved(p, t, b);
    }
    b.middle()
}
