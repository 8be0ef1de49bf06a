// Queries from the inside: where the state lies that a query finds, so that a state or a derivative is
// worked there and nothing of the other (specs/Queries.antt, specs/Outcomes.antt). An (h,s) query works
// a state to judge it, and carries that.
ghost use Rattle.std.specs.Prelude.{◌≡◌};
ghost use Rattle.sums.specs.Queries.{temperature_of, answer_py, state_hs};
ghost use Rattle.sums.specs.Outcomes.{full_in, found_of};

use crate::candidates::candidate;
use equations::{Equation, Phase, equation_of};
use places::{Standing, standing_py, wild};
use pull::pulled;
use refusals::Refusal;
use states::{Full, Wet, wet_at};
use workings::Given;

// Where a state of one phase lies.
#[derive(Clone, Copy)]
pub(crate) struct Spot {
    pub equation: Equation,
    pub p: f64,
    pub t: f64,
}

#[derive(Clone, Copy)]
pub(crate) enum Found {
    Single(Spot),
    Wet(Wet),
}

// T in K by the backward equation of a phase for p in MPa and an h in kJ/kg or s in kJ/(kg K).
pub(crate) fn temperature(given: Given, phase: Phase, p: f64, y: f64) -> f64
    ensures { result ≡ temperature_of given phase p y }
{
    match phase {
        Phase::Liquid => match given {
            Given::Enthalpy => backward::t1_ph(p, y),
            Given::Entropy => backward::t1_ps(p, y),
        },
        Phase::Vapour => match given {
            Given::Enthalpy => backward::t2_ph(p, y),
            Given::Entropy => backward::t2_ps(p, y),
        },
    }
}

// From p in MPa and an h in kJ/kg or s in kJ/(kg K).
pub(crate) fn of_py(given: Given, p: f64, y: f64) -> Result<Found, Refusal>
    ensures { result ≡ found_of (answer_py given p y) }
{
    match standing_py(given, p, y)? {
        Standing::Beside { phase, saturated } => {
            let equation = equation_of(phase);
            let t = pulled(phase, saturated, temperature(given, phase, p, y));
            Ok(Found::Single(Spot { equation, p, t }))
        }
        Standing::Wet(t) => Ok(Found::Wet(wet_at(given, p, y, t))),
        Standing::Beyond(phase) => {
            let equation = equation_of(phase);
            let t = temperature(given, phase, p, y);
            Ok(Found::Single(Spot { equation, p, t }))
        }
    }
}

// From h in kJ/kg and s in kJ/(kg K). One state is held and overwritten, not two side by side: each takes
// some 200 bytes of stack (bench/stack).
pub(crate) fn of_hs(h: f64, s: f64) -> Result<Full, Refusal>
    ensures { result ≡ full_in (state_hs h s) }
{
    if wild(h, s) {
        return Err(Refusal::NotFinite);
    }
    let mut found = candidate(Phase::Liquid, h, s);
    match found {
        Err(_) => found = candidate(Phase::Vapour, h, s),
        Ok(_) => {}
    }
    found
}
