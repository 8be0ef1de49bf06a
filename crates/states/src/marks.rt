// Single-phase states with their marks (specs/Marks.antt).
ghost use Rattle.std.specs.Prelude.{◌≡◌, true};
ghost use Rattle.properties.specs.Properties.{rooted_of};
ghost use Rattle.equations.specs.Equations.{equation_of};
ghost use Rattle.equations.specs.declared.Equation.TheVariants as equation;
ghost use Rattle.states.specs.Marks.{near, verified_of, both_near, met_at, met_of, single_of, marked_of, marked_both_of, full_of, handed_out};

use crate::{Full, Single};
use dense::{Region3, density};
use equations::{Equation, Phase, equation_of};
use hot::Region5;
use liquid::Region1;
use properties::{Basic, Unrooted, rooted};
use steam::Region2;
use workings::{Given, given_of, worked_at};

// The margins of a verified state: of h in kJ/kg, of s in kJ/(kg K), and of p in MPa.
const H_MARGIN: f64 = 0.08;

const S_MARGIN: f64 = 0.0001;

const P_MARGIN: f64 = 0.001;

// The six properties with w squared, and whether the equation comes back to the p and T asked.
#[derive(Clone, Copy)]
pub(crate) struct Met {
    pub unrooted: Unrooted,
    pub met: bool,
}

// Whether x and y differ by at most the margin.
fn near(margin: f64, x: f64, y: f64) -> bool
    ensures { result ≡ near margin x y }
{
    let d = x - y;
    if d < 0.0 {
        return -d <= margin;
    }
    d <= margin
}

// Whether an h in kJ/kg and an s in kJ/(kg K) come back to the one that was asked.
pub(crate) fn verified(given: Given, h: f64, s: f64, y: f64) -> bool
    ensures { result ≡ verified_of given h s y }
{
    near(
        given_of(given, H_MARGIN, S_MARGIN),
        given_of(given, h, s),
        y,
    )
}

// Whether both h and s of a state are within the margins dh and ds.
#[tactic(auto, unfolding(properties::specs::Properties::rooted_of))]
pub fn both_near(dh: f64, ds: f64, a: Unrooted, h: f64, s: f64) -> bool
    ensures { result ≡ both_near dh ds (rooted_of a) h s }
{
    near(dh, a.h, h) && near(ds, a.s, s)
}

// Region 3 is worked at the density found, and comes back where its pressure there is the one asked.
fn met_3(p: f64, t: f64) -> Met
    ensures { result ≡ met_of equation.Region3 p t }
{
    let found = density(p, t);
    let f = Region3::phi(found, t);
    let pressure = Region3::pressure_of(found, t, f);
    Met {
        unrooted: Region3::unrooted_of(found, t, f),
        met: near(P_MARGIN, pressure, p),
    }
}

// Regions 1, 2 and 5 are worked at the p and T asked, so they come back to them.
fn exact(unrooted: Unrooted) -> Met
    ensures { result ≡ record { unrooted = unrooted; met = true } }
{
    Met {
        unrooted,
        met: true,
    }
}

// By an equation at p and T.
#[tactic(auto, unfolding(workings::specs::Workings::unrooted_at))]
fn met_at(equation: Equation, p: f64, t: f64) -> Met
    ensures { result ≡ met_of equation p t }
{
    match equation {
        Equation::Region1 => exact(Region1::unrooted(p, t)),
        Equation::Region2 => exact(Region2::unrooted(p, t)),
        Equation::Region3 => met_3(p, t),
        Equation::Region5 => exact(Region5::unrooted(p, t)),
    }
}

// The state of an equation at p and T, marked by whether it comes back to them.
#[tactic(auto, unfolding(workings::specs::Workings::state_at))]
pub fn state_at(equation: Equation, p: f64, t: f64) -> Single
    ensures { result ≡ single_of equation p t (met_at equation p t) }
{
    let a = met_at(equation, p, t);
    let unrooted = a.unrooted;
    Single {
        equation,
        p,
        t,
        state: rooted(unrooted),
        verified: a.met,
    }
}

// The state of an equation at p and T, marked by the h or s that was asked.
#[tactic(auto, unfolding(crate::specs::Marks::marked_of, workings::specs::Workings::state_at, properties::specs::Properties::rooted_of))]
pub fn marked(given: Given, equation: Equation, p: f64, y: f64, t: f64) -> Single
    ensures { result ≡ marked_of given equation p y t }
{
    let worked = met_at(equation, p, t);
    let a = worked.unrooted;
    Single {
        equation,
        p,
        t,
        state: rooted(a),
        verified: verified(given, a.h, a.s, y),
    }
}

// The state of a phase at p and T with its slopes, marked by both the h and the s that were asked.
pub fn carried(phase: Phase, p: f64, t: f64, h: f64, s: f64) -> Full
    ensures { result ≡ full_of (marked_both_of (equation_of phase) p t h s) }
{
    let worked = worked_at(phase, p, t);
    let unrooted = worked.unrooted;
    Full {
        equation: equation_of(phase),
        p,
        t,
        worked,
        verified: both_near(H_MARGIN, S_MARGIN, unrooted, h, s),
    }
}

// A state as it is handed out: w by its root, and without what derivatives need.
pub fn handed_out(a: Full) -> Single
    ensures { result ≡ handed_out a }
{
    let unrooted = a.worked.unrooted;
    let equation = a.equation;
    Single {
        equation,
        p: a.p,
        t: a.t,
        state: rooted(unrooted),
        verified: a.verified,
    }
}
