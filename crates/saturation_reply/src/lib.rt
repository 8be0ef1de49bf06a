// What a direct question for the saturation pressure is answered: the pressure with its place, or the
// refusal (specs/Asked.antt); and what that says in the request's words, its place and value
// (specs/Answers.antt). Every call takes every number. p in MPa, T in K.
#![tactic(auto)]

ghost use Rattle.std.specs.Prelude.{◌≡◌};
ghost use Rattle.saturation_reply.specs.Answers.{place_of, value_of};
ghost use Rattle.saturation_reply.specs.Asked.{saturation_of};

use refusals::Refusal;
use saturation_line::{SaturationPressure, ps};

// The saturation pressure at T, by where T stands, or the refusal: of a T off the line, out of range.
#[tactic(auto, unfolding(crate::specs::Asked::saturation_of))]
pub fn saturation(t: f64) -> Result<SaturationPressure, Refusal>
    ensures { result ≡ saturation_of t }
{
    if !arith::is_finite(t) {
        return Err(Refusal::NotFinite);
    }
    ps(t).ok_or(Refusal::Temperature)
}

// The place of an answer, which is no region: 1 up to 623.15 K, 2 above that, 0 if refused, as the request
// numbers them.
pub fn place<E: Copy>(answer: Result<SaturationPressure, E>) -> u64
    ensures { result ≡ place_of answer }
{
    match answer {
        Ok(SaturationPressure::UpTo623(_)) => 1,
        Ok(SaturationPressure::Above623(_)) => 2,
        Err(_) => 0,
    }
}

// The pressure of an answer, unless refused.
pub fn value<E: Copy>(answer: Result<SaturationPressure, E>) -> Option<f64>
    ensures { result ≡ value_of answer }
{
    match answer {
        Ok(SaturationPressure::UpTo623(p)) => Some(p),
        Ok(SaturationPressure::Above623(p)) => Some(p),
        Err(_) => None,
    }
}
