// The natural logarithm of an f64, by the series that specs/Log.antt gives.
ghost use Rattle.std.specs.Prelude.{◌≡◌, ◌<◌};
ghost use Rattle.std.specs.Float.{binary64};
ghost use Rattle.std.specs.Float.Ieee.{minus, of_int};
ghost use Rattle.elementary.specs.Log.{log_sum, log_of};

// k - c as an f64, which holds it exactly.
fn difference(k: u64, c: u64) -> f64
    requires { (k < 4096) × (c < 4096) }
    ensures { result ≡ of_int binary64 (minus k c) }
{
    (k as i64 - c as i64) as f64
}

// The logarithm of m · 2^e, by the series in z = (m - 1) / (m + 1).
fn log_sum(m: f64, e: f64) -> f64
    ensures { result ≡ log_sum m e }
{
    let z = (m - 1.0) / (m + 1.0);
    let q = z * z;
    let mut t = 1.0 / 23.0;
    for j in 0u32..11 {
        t = t * q + 1.0 / f64::from(21 - 2 * j);
    }
    e * 0.693147180559945309417 + (2.0 * z) * t
}

// The natural logarithm of x. Zero, what is negative, subnormal or infinite, and NaN give NaN.
pub fn log(x: f64) -> f64
    ensures { result ≡ log_of x }
{
    if 0.0 < x {
        let b = x.to_bits();
        if b < 0x7ff0_0000_0000_0000 {
            if b < 0x10_0000_0000_0000 {
                return f64::NAN;
            }
            let k = b / 0x10_0000_0000_0000 - 1;
            let t = b % 0x10_0000_0000_0000;
            if t < 0x8_0000_0000_0000 {
                return log_sum(
                    f64::from_bits(0x3ff0_0000_0000_0000 + t),
                    difference(k, 1022),
                );
            }
            return log_sum(
                f64::from_bits(0x3fe0_0000_0000_0000 + t),
                difference(k, 1021),
            );
        }
    }
    f64::NAN
}
