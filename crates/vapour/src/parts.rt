// γ, h and s of a region of vapour at a point, from the tables of its two parts: 002, Tables 5, 6, 11 and
// 12 (specs/Vapour.antt).
ghost use Rattle.std.specs.Prelude.{◌≡◌, List, Float};
ghost use Rattle.terms.specs.Sum.{Term, rows_of, sum_of};
ghost use Rattle.terms.specs.Six.{six_of};
ghost use Rattle.vapour.specs.Vapour.{vapour_at, vapour_unrooted};
ghost use Rattle.vapour.specs.Walks.{by_pi, by_tau};

use crate::{Vapour, added, gibbs};
use properties::{Point, enthalpy, entropy};
use terms::{Six, Table};

// What a region of vapour has of its own beside its constants: the tables of its ideal-gas part and of its
// residual part, and the τ at which the residual part is summed.
pub trait Parts {
    ghost ideal: { List Term };

    ghost residual: { List Term };

    ghost shifted: { Float → Float };

    // The table of the ideal-gas part.
    fn ideal() -> Table<'static>
        ensures { rows_of result ≡ ideal };

    // The table of the residual part.
    fn residual() -> Table<'static>
        ensures { rows_of result ≡ residual };

    // The τ of the residual part.
    fn shifted(tau: f64) -> f64
        ensures { result ≡ shifted tau };
}

// What gamma_at, h_at and s_at take of the sum of the ideal-gas part, each its own: the compiler places a
// walk in line where it is called once, and leaves out what is not taken.
fn ideal_six<V: Parts>(x: Point) -> Six
    ensures { result ≡ six_of V.ideal x.pi x.tau }
{
    V::ideal().six(x.pi, x.tau)
}

fn ideal_slope<V: Parts>(x: Point) -> f64
    ensures { result ≡ sum_of V.ideal 0 1 x.pi x.tau }
{
    V::ideal().slope_by_b(x.pi, x.tau)
}

fn ideal_both<V: Parts>(x: Point) -> Six
    ensures { result ≡ six_of V.ideal x.pi x.tau }
{
    V::ideal().six(x.pi, x.tau)
}

// The same of the sum of the residual part. Its six sums are taken three by three, each three in a frame of
// their own, so that the products that they share take less than two KiB of stack (bench/stack).
fn residual_six<V: Parts>(x: Point) -> Six
    ensures { result ≡ six_of V.residual x.pi (V.shifted x.tau) }
{
    let by_pi = residual_by_pi::<V>(x);
    let by_tau = residual_by_tau::<V>(x);
    Six {
        f: by_pi.sum,
        fa: by_pi.first,
        faa: by_pi.second,
        fb: by_tau.first,
        fbb: by_tau.second,
        fab: by_tau.mixed,
    }
}

// A sum and its derivatives by π.
#[derive(Clone, Copy)]
struct ByPi {
    sum: f64,
    first: f64,
    second: f64,
}

// Its derivatives by τ, and by both.
#[derive(Clone, Copy)]
struct ByTau {
    first: f64,
    second: f64,
    mixed: f64,
}

// What each of these three takes of the walk, by a function of its own, as above.
fn residual_for_pi<V: Parts>(x: Point) -> Six
    ensures { result ≡ six_of V.residual x.pi (V.shifted x.tau) }
{
    V::residual().six(x.pi, V::shifted(x.tau))
}

fn residual_for_tau<V: Parts>(x: Point) -> Six
    ensures { result ≡ six_of V.residual x.pi (V.shifted x.tau) }
{
    V::residual().six(x.pi, V::shifted(x.tau))
}

#[inline(never)]
fn residual_by_pi<V: Parts>(x: Point) -> ByPi
    ensures { result ≡ by_pi (six_of V.residual x.pi (V.shifted x.tau)) }
{
    let s = residual_for_pi::<V>(x);
    ByPi {
        sum: s.f,
        first: s.fa,
        second: s.faa,
    }
}

#[inline(never)]
fn residual_by_tau<V: Parts>(x: Point) -> ByTau
    ensures { result ≡ by_tau (six_of V.residual x.pi (V.shifted x.tau)) }
{
    let s = residual_for_tau::<V>(x);
    ByTau {
        first: s.fb,
        second: s.fbb,
        mixed: s.fab,
    }
}

fn residual_slope<V: Parts>(x: Point) -> f64
    ensures { result ≡ sum_of V.residual 0 1 x.pi (V.shifted x.tau) }
{
    V::residual().slope_by_b(x.pi, V::shifted(x.tau))
}

fn residual_both<V: Parts>(x: Point) -> Six
    ensures { result ≡ six_of V.residual x.pi (V.shifted x.tau) }
{
    V::residual().six(x.pi, V::shifted(x.tau))
}

// γ and its derivatives.
pub fn gamma_at<V: Parts>(x: Point) -> Vapour
    ensures { result ≡ vapour_at V.ideal V.residual V.shifted x }
{
    added(x.pi, ideal_six::<V>(x), residual_six::<V>(x))
}

// The enthalpy in kJ/kg, from the sums that it needs.
pub fn h_at<V: Parts>(x: Point) -> f64
    ensures { result ≡ (vapour_unrooted x (vapour_at V.ideal V.residual V.shifted x)).h }
{
    enthalpy(x, ideal_slope::<V>(x) + residual_slope::<V>(x))
}

// The entropy in kJ/(kg K), from the sums that it needs.
pub fn s_at<V: Parts>(x: Point) -> f64
    ensures { result ≡ (vapour_unrooted x (vapour_at V.ideal V.residual V.shifted x)).s }
{
    let ideal = ideal_both::<V>(x);
    let residual = residual_both::<V>(x);
    entropy(x, gibbs(x.pi, ideal.f, residual.f), ideal.fb + residual.fb)
}
