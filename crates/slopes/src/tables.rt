// The slopes of 001 for an equation in p and T and for one in v and T (specs/Slopes.antt). There p is in
// kPa, so that v·p is in kJ/kg.
ghost use Rattle.std.specs.Prelude.{◌≡◌};
ghost use Rattle.slopes.specs.Slopes.{by_p, by_t, slopes_pt, by_v, by_t_at_v, slopes_vt};

use crate::{Row, Slopes};
use properties::{PressureResponse, Response, Unrooted};

// By p at constant T. `pressure` is p in kPa.
fn by_p(pressure: f64, t: f64, a: Unrooted, r: Response) -> Row
    ensures { result ≡ by_p pressure t a r }
{
    Row {
        p: 1.0,
        t: 0.0,
        v: -(a.v * r.kappa),
        u: a.v * (pressure * r.kappa - t * r.alpha),
        h: a.v * (1.0 - t * r.alpha),
        s: -(a.v * r.alpha),
        g: a.v,
        f: pressure * a.v * r.kappa,
    }
}

// By T at constant p.
fn by_t(pressure: f64, t: f64, a: Unrooted, r: Response) -> Row
    ensures { result ≡ by_t pressure t a r }
{
    let work = pressure * a.v * r.alpha;
    Row {
        p: 0.0,
        t: 1.0,
        v: a.v * r.alpha,
        u: a.cp - work,
        h: a.cp,
        s: a.cp / t,
        g: -a.s,
        f: -work - a.s,
    }
}

// Both rows at p in MPa and T in K, from the properties there and from α and κ.
pub fn by_p_and_t(p: f64, t: f64, a: Unrooted, r: Response) -> Slopes
    ensures { result ≡ slopes_pt p t a r }
{
    let pressure = 1000.0 * p;
    Slopes {
        first: by_p(pressure, t, a, r),
        second: by_t(pressure, t, a, r),
    }
}

// By v at constant T. `pressure` is p in kPa.
fn by_v(pressure: f64, t: f64, a: Unrooted, r: PressureResponse) -> Row
    ensures { result ≡ by_v pressure t a r }
{
    Row {
        p: -(pressure * r.beta),
        t: 0.0,
        v: 1.0,
        u: pressure * (t * r.alpha - 1.0),
        h: pressure * (t * r.alpha - a.v * r.beta),
        s: pressure * r.alpha,
        g: -(pressure * a.v * r.beta),
        f: -pressure,
    }
}

// By T at constant v.
fn by_t_at_v(pressure: f64, t: f64, a: Unrooted, r: PressureResponse) -> Row
    ensures { result ≡ by_t_at_v pressure t a r }
{
    let work = pressure * a.v * r.alpha;
    Row {
        p: pressure * r.alpha,
        t: 1.0,
        v: 0.0,
        u: r.cv,
        h: r.cv + work,
        s: r.cv / t,
        g: work - a.s,
        f: -a.s,
    }
}

// Both rows at T in K, where the equation gives p in MPa, from the properties there and from α, β and cv.
pub fn by_v_and_t(p: f64, t: f64, a: Unrooted, r: PressureResponse) -> Slopes
    ensures { result ≡ slopes_vt p t a r }
{
    let pressure = 1000.0 * p;
    Slopes {
        first: by_v(pressure, t, a, r),
        second: by_t_at_v(pressure, t, a, r),
    }
}
