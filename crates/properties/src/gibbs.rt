// Reduced variables, and the properties from the Gibbs free energy γ and its derivatives by them,
// as regions 1, 2 and 5 work them: 002, Tables 2 and 4 (specs/Properties.antt).
ghost use Rattle.std.specs.Prelude.{◌≡◌};
ghost use Rattle.properties.specs.Properties.{reduced_by, enthalpy_of, entropy_of, unrooted_of, rooted_of};

use crate::{Point, State, Unrooted};

// p and T as a region reads them that has the gas constant r and reduces by pr and tr.
pub fn reduced(r: f64, pr: f64, tr: f64, p: f64, t: f64) -> Point
    ensures { result ≡ reduced_by r pr tr p t }
{
    Point {
        r,
        p,
        t,
        pi: p / pr,
        tau: tr / t,
    }
}

// The enthalpy in kJ/kg from γτ.
pub fn enthalpy(x: Point, gt: f64) -> f64
    ensures { result ≡ enthalpy_of x gt }
{
    x.r * x.t * x.tau * gt
}

// The entropy in kJ/(kg K) from γ and γτ.
pub fn entropy(x: Point, g: f64, gt: f64) -> f64
    ensures { result ≡ entropy_of x g gt }
{
    x.r * (x.tau * gt - g)
}

// The six properties with w squared, from γ, γπ, γτ, γττ and the quotient that is w²/(R·T).
pub fn from_gamma(x: Point, g: f64, gp: f64, gt: f64, gtt: f64, quotient: f64) -> Unrooted
    ensures { result ≡ unrooted_of x g gp gt gtt quotient }
{
    let rt = x.r * x.t;
    Unrooted {
        v: rt * x.pi * gp / (1000.0 * x.p),
        u: rt * (x.tau * gt - x.pi * gp),
        h: enthalpy(x, gt),
        s: entropy(x, g, gt),
        cp: -x.r * (x.tau * x.tau) * gtt,
        ww: 1000.0 * rt * quotient,
    }
}

// The six properties, w by its root.
#[tactic(auto, unfolding(crate::specs::Properties::rooted_of))]
pub fn rooted(a: Unrooted) -> State
    ensures { result ≡ rooted_of a }
{
    State {
        v: a.v,
        u: a.u,
        h: a.h,
        s: a.s,
        cp: a.cp,
        w: elementary::root(a.ww),
    }
}
