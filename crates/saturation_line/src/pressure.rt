// Where the saturation pressure stands (specs/Pressure.antt).
ghost use Rattle.std.specs.Prelude.{◌≡◌};
ghost use Rattle.saturation_line.specs.Pressure.{up_to623, above623, ps_of};

use crate::SaturationPressure;
use crate::printed::equation_28;

// The temperatures in K from which Eq. (28) is taken, at which region 3 begins, and at which the line ends
// at the critical point.
const T273: f64 = 273.15;

const T623: f64 = 623.15;

const T647: f64 = 647.096;

// Whether T is from 273.15 up to 623.15 K.
fn up_to_623(t: f64) -> bool
    ensures { result ≡ up_to623 t }
{
    T273 <= t && t <= T623
}

// Whether T is above 623.15, up to 647.096 K.
fn above_623(t: f64) -> bool
    ensures { result ≡ above623 t }
{
    T623 < t && t <= T647
}

// The saturation pressure at T in K, by where T stands; off the line there is none.
pub fn ps(t: f64) -> Option<SaturationPressure>
    ensures { result ≡ ps_of t }
{
    if up_to_623(t) {
        return Some(SaturationPressure::UpTo623(equation_28(t)));
    }
    if above_623(t) {
        return Some(SaturationPressure::Above623(equation_28(t)));
    }
    None
}
