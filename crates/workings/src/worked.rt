// The properties of a state and its slopes, by a basic equation at p and T (specs/Workings.antt).
ghost use Rattle.std.specs.Prelude.{◌≡◌};
ghost use Rattle.dense.specs.Region3.{pressure_of3, unrooted_of3, response_of3};
ghost use Rattle.slopes.specs.Slopes.{slopes_pt, slopes_vt, derivative_at};
ghost use Rattle.equations.specs.Equations.{equation_of};
ghost use Rattle.equations.specs.declared.Equation.TheVariants as equation;
ghost use Rattle.workings.specs.Workings.{slopes_at, worked_at, given_of, property_at};

use crate::Given;
use dense::{Dense, Region3, density};
use equations::{Equation, Phase};
use hot::Region5;
use liquid::Region1;
use properties::{Basic, Unrooted};
use refusals::Refusal;
use slopes::{Slopes, by_p_and_t, by_v_and_t, quotient};
use steam::Region2;

// The six properties with w squared, and the slopes, from one working of the sums.
#[derive(Clone, Copy)]
pub struct Worked {
    pub unrooted: Unrooted,
    pub slopes: Slopes,
}

// The slopes by a basic equation in p and T, from what gamma gave for them.
fn slopes_of<B: Basic>(p: f64, t: f64, g: B::Gamma) -> Slopes
    ensures { result ≡ slopes_pt p t (B.unrooted_of p t g) (B.response_of p t g) }
{
    by_p_and_t(p, t, B::unrooted_of(p, t, g), B::response_of(p, t, g))
}

// The same, from p and T alone.
fn slopes_by<B: Basic>(p: f64, t: f64) -> Slopes
    ensures { result ≡ slopes_pt p t (B.unrooted_of p t (B.gamma p t)) (B.response_of p t (B.gamma p t)) }
{
    slopes_of::<B>(p, t, B::gamma(p, t))
}

// Properties and slopes by a basic equation in p and T.
fn worked_by<B: Basic>(p: f64, t: f64) -> Worked
    ensures { result ≡ record { unrooted = B.unrooted_of p t (B.gamma p t); slopes = slopes_pt p t (B.unrooted_of p t (B.gamma p t)) (B.response_of p t (B.gamma p t)) } }
{
    let g = B::gamma(p, t);
    Worked {
        unrooted: B::unrooted_of(p, t, g),
        slopes: slopes_of::<B>(p, t, g),
    }
}

// The h in kJ/kg or s in kJ/(kg K) by a basic equation in p and T, from the sums that it alone needs.
#[tactic(auto, unfolding(crate::specs::Workings::given_of))]
fn property_by<B: Basic>(given: Given, p: f64, t: f64) -> f64
    ensures { result ≡ given_of given (B.unrooted_of p t (B.gamma p t)).h (B.unrooted_of p t (B.gamma p t)).s }
{
    match given {
        Given::Enthalpy => B::h(p, t),
        Given::Entropy => B::s(p, t),
    }
}

// The slopes of region 3 from what phi gave for density and t, with the equation's own pressure.
fn slopes_3(density: f64, t: f64, f: Dense) -> Slopes
    ensures { result ≡ slopes_vt (pressure_of3 density t f) t (unrooted_of3 density t f) (response_of3 density t f) }
{
    let p = Region3::pressure_of(density, t, f);
    let a = Region3::unrooted_of(density, t, f);
    let r = Region3::response_of(density, t, f);
    by_v_and_t(p, t, a, r)
}

// The slopes of region 3 at p and T: those at the density found.
#[tactic(auto, unfolding(crate::specs::Workings::slopes_at))]
fn dense_slopes(p: f64, t: f64) -> Slopes
    ensures { result ≡ slopes_at equation.Region3 p t }
{
    let found = density(p, t);
    slopes_3(found, t, Region3::phi(found, t))
}

// The derivative of property z by property x at constant y, numbered 1 to 8, by an equation at p and T. Of
// the state only its slopes are worked. Each equation takes its own quotient: their rows have different
// constants, and those of all in one place are more than the registers hold.
#[tactic(auto, unfolding(crate::specs::Workings::slopes_at))]
pub fn quotient_at(
    equation: Equation,
    p: f64,
    t: f64,
    z: u64,
    x: u64,
    y: u64,
) -> Result<f64, Refusal>
    ensures { result ≡ derivative_at (slopes_at equation p t) z x y }
{
    match equation {
        Equation::Region1 => quotient(slopes_by::<Region1>(p, t), z, x, y),
        Equation::Region2 => quotient(slopes_by::<Region2>(p, t), z, x, y),
        Equation::Region3 => quotient(dense_slopes(p, t), z, x, y),
        Equation::Region5 => quotient(slopes_by::<Region5>(p, t), z, x, y),
    }
}

// The six properties with w squared and the slopes, for a phase, from one working of the sums.
#[tactic(auto, unfolding(crate::specs::Workings::worked_at, crate::specs::Workings::slopes_at, crate::specs::Workings::unrooted_at))]
pub fn worked_at(phase: Phase, p: f64, t: f64) -> Worked
    ensures { result ≡ worked_at (equation_of phase) p t }
{
    match phase {
        Phase::Liquid => worked_by::<Region1>(p, t),
        Phase::Vapour => worked_by::<Region2>(p, t),
    }
}

// Of an h and an s, the one that is given.
#[tactic(auto, unfolding(crate::specs::Workings::given_of))]
pub fn given_of(given: Given, h: f64, s: f64) -> f64
    ensures { result ≡ given_of given h s }
{
    match given {
        Given::Enthalpy => h,
        Given::Entropy => s,
    }
}

// The h in kJ/kg or s in kJ/(kg K) of a phase at p and T.
#[tactic(auto, unfolding(crate::specs::Workings::property_at, crate::specs::Workings::state_at, crate::specs::Workings::unrooted_at, properties::specs::Properties::rooted_of))]
pub fn property(given: Given, phase: Phase, p: f64, t: f64) -> f64
    ensures { result ≡ property_at given phase p t }
{
    match phase {
        Phase::Liquid => property_by::<Region1>(given, p, t),
        Phase::Vapour => property_by::<Region2>(given, p, t),
    }
}
