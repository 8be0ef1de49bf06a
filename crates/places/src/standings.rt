// How a query of (p,h) or (p,s) stands to the saturation line, and its side (specs/Places.antt,
// specs/Standing.antt).
ghost use Rattle.std.specs.Prelude.{◌≡◌};
ghost use Rattle.places.specs.Places.{saturated_of, dense_of, ranged_of, place_py};
ghost use Rattle.places.specs.Standing.{beside_line, standing_of, standing_py, side_of};
ghost use Rattle.saturation_line.specs.Printed.{ts_of};

use crate::limits::{P_MOST, P_TRIPLE, T273, T623, T1073, saturates};
use crate::ranges::{outside, wild};
use crate::{Side, Standing};
use equations::Phase;
use refusals::Refusal;
use saturation_line::ts;
use workings::{Given, property};

// Up to P: liquid, wet or vapour, by the saturated states.
#[tactic(auto, unfolding(crate::specs::Places::saturated_of))]
fn saturated(given: Given, p: f64, y: f64) -> Standing
    ensures { result ≡ beside_line (ts_of p) (saturated_of given p y) }
{
    let t = ts(p);
    if y < property(given, Phase::Liquid, p, t) {
        return Standing::Beside {
            phase: Phase::Liquid,
            saturated: t,
        };
    }
    if y <= property(given, Phase::Vapour, p, t) {
        return Standing::Wet(t);
    }
    Standing::Beside {
        phase: Phase::Vapour,
        saturated: t,
    }
}

// Above P: liquid or vapour; region 3, between them, is refused.
fn dense(given: Given, p: f64, y: f64) -> Result<Phase, Refusal>
    ensures { result ≡ dense_of given p y }
{
    if y <= property(given, Phase::Liquid, p, T623) {
        return Ok(Phase::Liquid);
    }
    if y >= property(given, Phase::Vapour, p, boundaries::t_b23(p)) {
        return Ok(Phase::Vapour);
    }
    Err(Refusal::Region3)
}

// Within the range of y at p, by the way that p lies to P.
fn ranged(given: Given, p: f64, y: f64) -> Result<Standing, Refusal>
    ensures { result ≡ standing_of p (ranged_of given p y) }
{
    let least = property(given, Phase::Liquid, p, T273);
    let most = property(given, Phase::Vapour, p, T1073);
    if outside(least, most, y) {
        return Err(Refusal::EnthalpyOrEntropy);
    }
    if saturates(p) {
        return Ok(saturated(given, p, y));
    }
    Ok(Standing::Beyond(dense(given, p, y)?))
}

// How p and an h or s stand to the saturation line, or the refusal.
pub fn standing_py(given: Given, p: f64, y: f64) -> Result<Standing, Refusal>
    ensures { result ≡ standing_py given p y }
{
    if wild(p, y) {
        return Err(Refusal::NotFinite);
    }
    if outside(P_TRIPLE, P_MOST, p) {
        return Err(Refusal::Pressure);
    }
    ranged(given, p, y)
}

// The side of a standing.
fn side(standing: Standing) -> Side
    ensures { result ≡ side_of standing }
{
    match standing {
        Standing::Beside {
            phase,
            saturated: _,
        } => Side::Phase(phase),
        Standing::Wet(t) => Side::Wet(t),
        Standing::Beyond(phase) => Side::Phase(phase),
    }
}

// Where p and an h or s lie, or the refusal.
pub fn place_py(given: Given, p: f64, y: f64) -> Result<Side, Refusal>
    ensures { result ≡ place_py given p y }
{
    Ok(side(standing_py(given, p, y)?))
}
