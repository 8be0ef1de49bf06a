// Temperatures on the wrong side of saturation, liquid above the line's and vapour below it, and which of
// them are pulled to it (specs/Pull.antt). Every call takes every number. Temperatures in K.
#![tactic(auto)]

ghost use Rattle.std.specs.Prelude.{◌≡◌};
ghost use Rattle.pull.specs.Pull.{is_past, past_by, pulled_to, in_reach};

use equations::Phase;

// How far past the line a candidate of (h,s) is still pulled to it.
const REACH: f64 = 0.025;

// Whether t lies past the line: above it in region 1, below it in region 2.
fn is_past(phase: Phase, saturated: f64, t: f64) -> bool
    ensures { result ≡ is_past phase saturated t }
{
    match phase {
        Phase::Liquid => saturated < t,
        Phase::Vapour => t < saturated,
    }
}

// By how many K.
fn past_by(phase: Phase, saturated: f64, t: f64) -> f64
    ensures { result ≡ past_by phase saturated t }
{
    match phase {
        Phase::Liquid => t - saturated,
        Phase::Vapour => saturated - t,
    }
}

// t, or the line's temperature where t lies past it.
#[tactic(auto, unfolding(crate::specs::Pull::pulled_to))]
pub fn pulled(phase: Phase, saturated: f64, t: f64) -> f64
    ensures { result ≡ pulled_to phase saturated t }
{
    if is_past(phase, saturated, t) {
        return saturated;
    }
    t
}

// Whether t lies past the line by at most 0.025 K.
pub fn in_reach(phase: Phase, saturated: f64, t: f64) -> bool
    ensures { result ≡ in_reach phase saturated t }
{
    is_past(phase, saturated, t) && past_by(phase, saturated, t) <= REACH
}
