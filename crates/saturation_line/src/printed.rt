// The equations of the saturation line as printed: 002, Eqs. (28) and (55), Table A11
// (specs/Printed.antt).
ghost use Rattle.std.specs.Prelude.{◌≡◌};
ghost use Rattle.saturation_line.specs.Printed.{equation28, ts_of};

use elementary::{fourth_root, root};

// Table A11.
const N1: f64 = 0.11670521452767e4;

const N2: f64 = -0.72421316703206e6;

const N3: f64 = -0.17073846940092e2;

const N4: f64 = 0.12020824702470e5;

const N5: f64 = -0.32325550322333e7;

const N6: f64 = 0.14915108613530e2;

const N7: f64 = -0.48232657361591e4;

const N8: f64 = 0.40511340542057e6;

const N9: f64 = -0.23855557567849;

const N10: f64 = 0.65017534844798e3;

// Eq. (28) as printed at any T in K: the saturation pressure in MPa where there is one, and a number
// without meaning elsewhere, which `ps` does not hand out.
pub(crate) fn equation_28(t: f64) -> f64
    ensures { result ≡ equation28 t }
{
    let theta = t + N9 / (t - N10);
    let a = theta * theta + N1 * theta + N2;
    let b = N3 * (theta * theta) + N4 * theta + N5;
    let c = N6 * (theta * theta) + N7 * theta + N8;
    let x = 2.0 * c / (-b + root(b * b - 4.0 * a * c));
    x * x * x * x
}

// The saturation temperature in K at p in MPa, as printed at any p.
pub fn ts(p: f64) -> f64
    ensures { result ≡ ts_of p }
{
    let beta = fourth_root(p);
    let e = beta * beta + N3 * beta + N6;
    let f = N1 * (beta * beta) + N4 * beta + N7;
    let g = N2 * (beta * beta) + N5 * beta + N8;
    let d = 2.0 * g / (-f - root(f * f - 4.0 * e * g));
    let c = N10 + d;
    (c - root(c * c - 4.0 * (N9 + N10 * d))) / 2.0
}
