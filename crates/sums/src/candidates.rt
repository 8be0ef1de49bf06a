// The candidates of an (h,s) query (specs/Queries.antt).
ghost use Rattle.std.specs.Prelude.{◌≡◌};
ghost use Rattle.places.specs.Places.{place_pt};
ghost use Rattle.sums.specs.Queries.{pressure_of, is_in, close_of, candidate_of};
ghost use Rattle.sums.specs.Outcomes.{full_in, trial_of};

use crate::outcomes::temperature;
use equations::{Phase, is_of};
use places::{P_TRIPLE, place_pt, saturates};
use pull::in_reach;
use refusals::Refusal;
use saturation_line::ts;
use states::{Full, both_near, carried};
use workings::Given;

// How far forward h in kJ/kg and s in kJ/(kg K) of a candidate may lie from those asked.
const H_MARGIN: f64 = 0.2;

const S_MARGIN: f64 = 0.0005;

// p in MPa by the backward equation of a phase for h in kJ/kg and s in kJ/(kg K).
fn pressure(phase: Phase, h: f64, s: f64) -> f64
    ensures { result ≡ pressure_of phase h s }
{
    match phase {
        Phase::Liquid => backward::p1_hs(h, s),
        Phase::Vapour => backward::p2_hs(h, s),
    }
}

// Whether the (p,T) table gives the region of a phase.
fn is_in(phase: Phase, p: f64, t: f64) -> bool
    ensures { result ≡ is_in phase (place_pt p t) }
{
    place_pt(p, t).is_ok_and(|equation| is_of(equation, phase))
}

// The state at p and T, if forward h and s come close to those asked.
fn close(phase: Phase, p: f64, t: f64, h: f64, s: f64) -> Result<Full, Refusal>
    ensures { result ≡ full_in (close_of phase p t h s) }
{
    let a = carried(phase, p, t, h, s);
    if both_near(H_MARGIN, S_MARGIN, a.worked.unrooted, h, s) {
        return Ok(a);
    }
    Err(Refusal::NoRegion)
}

// Where a candidate is judged, its T in K: where T lies a little past the saturation line, at the line's,
// with the table not asked; elsewhere at its own, if the table agrees. One state is then worked, in one
// place, so that it is not copied.
#[tactic(auto, unfolding(crate::specs::Outcomes::trial_of))]
fn tried(phase: Phase, p: f64, t: f64) -> Result<f64, Refusal>
    ensures { result ≡ trial_of phase p t }
{
    if saturates(p) {
        let saturated = ts(p);
        if in_reach(phase, saturated, t) {
            return Ok(saturated);
        }
    }
    if is_in(phase, p, t) {
        return Ok(t);
    }
    Err(Refusal::NoRegion)
}

// The state of a phase that h in kJ/kg and s in kJ/(kg K) point to, or 7 if it does not pass.
pub(crate) fn candidate(phase: Phase, h: f64, s: f64) -> Result<Full, Refusal>
    ensures { result ≡ full_in (candidate_of phase h s) }
{
    let p = pressure(phase, h, s);
    if p >= P_TRIPLE {
        let t = tried(phase, p, temperature(Given::Enthalpy, phase, p, h))?;
        return close(phase, p, t, h, s);
    }
    Err(Refusal::NoRegion)
}
