// One row of a table: its term in a sum and in the sum's derivatives (specs/Sum.antt, specs/Six.antt).
// Every power is formed again for every term, as its definition says. Where the compiler knows the row,
// it forms the products that rows and terms share only once.
ghost use Rattle.std.specs.Prelude.{◌≡◌, cond, ◌||◌, pos, ◌-ℤ◌};
ghost use Rattle.arith.specs.F64.{◌⊕◌, ◌⊗◌};
ghost use Rattle.arith.specs.Power.{power_of};
ghost use Rattle.terms.specs.Sum.{row, scaled, gone};
ghost use Rattle.terms.specs.Six.{plus_six};

use crate::Six;

// e - d, an exponent less the order of a derivative.
fn lowered(e: i8, d: u8) -> i16
    ensures { result ≡ e -ℤ pos d }
{
    i16::from(e) - i16::from(d)
}

// x^(e-d).
fn power(x: f64, e: i8, d: u8) -> f64
    ensures { result ≡ power_of x (e -ℤ pos d) }
{
    arith::power(x, lowered(e, d))
}

// n·e·(e-1).., d factors in all.
fn scaled(n: f64, e: i8, d: u8) -> f64
    ensures { result ≡ scaled n e d }
{
    let mut f = n;
    for k in 0..d {
        f = f * (lowered(e, k) as f64);
    }
    f
}

// Whether one of those factors is 0.
#[tactic(auto, unfolding(crate::specs::Sum::gone))]
fn gone(e: i8, d: u8) -> bool
    ensures { result ≡ gone e d }
{
    0 <= e && i16::from(e) < i16::from(d)
}

// r and a row's term of orders da and db, made of its factor f and its powers x and y, unless it is left
// out.
fn plus(r: f64, i: i8, j: i8, da: u8, db: u8, f: f64, x: f64, y: f64) -> f64
    ensures { result ≡ cond (gone i da || gone j db) r (r ⊕ ((f ⊗ x) ⊗ y)) }
{
    if gone(i, da) {
        return r;
    }
    if gone(j, db) {
        return r;
    }
    r + f * x * y
}

// Six sums with a row's terms added.
pub(crate) fn plus_six(s: Six, i: i8, j: i8, n: f64, a: f64, b: f64) -> Six
    ensures { result ≡ plus_six a b s (row i j n) }
{
    let a0 = power(a, i, 0);
    let a1 = power(a, i, 1);
    let a2 = power(a, i, 2);
    let b0 = power(b, j, 0);
    let b1 = power(b, j, 1);
    let b2 = power(b, j, 2);
    let ni = scaled(n, i, 1);
    Six {
        f: plus(s.f, i, j, 0, 0, n, a0, b0),
        fa: plus(s.fa, i, j, 1, 0, ni, a1, b0),
        faa: plus(s.faa, i, j, 2, 0, scaled(n, i, 2), a2, b0),
        fb: plus(s.fb, i, j, 0, 1, scaled(n, j, 1), a0, b1),
        fbb: plus(s.fbb, i, j, 0, 2, scaled(n, j, 2), a0, b2),
        fab: plus(s.fab, i, j, 1, 1, scaled(ni, j, 1), a1, b1),
    }
}
