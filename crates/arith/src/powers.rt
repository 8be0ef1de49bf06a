// Whole powers by multiplying, in the one order that gives their bits (specs/Power.antt): the library's
// powi squares, which gives others.
ghost use Rattle.std.specs.Prelude.{◌≡◌};
ghost use Rattle.arith.specs.Power.{raised, power_of};

// x^k, formed from x^0 = 1 by k multiplications.
fn raised(x: f64, k: u16) -> f64
    ensures { result ≡ raised x k }
{
    let mut r = 1.0;
    for _ in 0..k {
        r = r * x;
    }
    r
}

// x^k for a whole k: 1 for k = 0, and 1 / x^(-k) for a negative one. Each arm forms its power, so that
// of a known k the other is left out and the products stand in line (bench/count --limits shows a loss).
pub fn power(x: f64, k: i16) -> f64
    ensures { result ≡ power_of x k }
{
    let size = k.unsigned_abs();
    if k < 0 {
        1.0 / raised(x, size)
    } else {
        raised(x, size)
    }
}
