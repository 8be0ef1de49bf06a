// Quotients of two determinants of slopes (specs/Slopes.antt).
ghost use Rattle.std.specs.Prelude.{◌≡◌};
ghost use Rattle.arith.specs.F64.{◌⊖◌, ◌⊗◌};
ghost use Rattle.slopes.specs.Slopes.{number_of, change_of, divides_of, ratio_at, derivative_at};

use crate::Slopes;
use crate::numbers::Property;
use refusals::Refusal;

// How one property changes with the first variable, and with the second.
#[derive(Clone, Copy)]
pub(crate) struct Change {
    pub first: f64,
    pub second: f64,
}

fn change_of(a: Slopes, property: Property) -> Change
    ensures { result ≡ change_of a (number_of property) }
{
    match property {
        Property::Pressure => Change {
            first: a.first.p,
            second: a.second.p,
        },
        Property::Temperature => Change {
            first: a.first.t,
            second: a.second.t,
        },
        Property::Volume => Change {
            first: a.first.v,
            second: a.second.v,
        },
        Property::InternalEnergy => Change {
            first: a.first.u,
            second: a.second.u,
        },
        Property::Enthalpy => Change {
            first: a.first.h,
            second: a.second.h,
        },
        Property::Entropy => Change {
            first: a.first.s,
            second: a.second.s,
        },
        Property::GibbsEnergy => Change {
            first: a.first.g,
            second: a.second.g,
        },
        Property::HelmholtzEnergy => Change {
            first: a.first.f,
            second: a.second.f,
        },
    }
}

// z_1·y_2 - z_2·y_1.
fn determinant(z: Change, y: Change) -> f64
    ensures { result ≡ z.first ⊗ y.second ⊖ z.second ⊗ y.first }
{
    z.first * y.second - z.second * y.first
}

// Whether a denominator is finite and not zero, of either sign.
fn divides(below: f64) -> bool
    ensures { result ≡ divides_of below }
{
    if below == 0.0 {
        return false;
    }
    arith::is_finite(below)
}

// The quotient at a state, from its slopes; 8 if its denominator is zero or not finite. That is judged
// before the numerator is worked.
fn at(a: Slopes, z: Property, x: Property, y: Property) -> Result<f64, Refusal>
    ensures { result ≡ ratio_at a (number_of z) (number_of x) (number_of y) }
{
    let held = change_of(a, y);
    let below = determinant(change_of(a, x), held);
    if divides(below) {
        let above = determinant(change_of(a, z), held);
        return Ok(above / below);
    }
    Err(Refusal::WetOrSingular)
}

// The derivative of property z by property x at constant y, numbered 1 to 8, at a state, from its slopes. They
// are numbers, since any is taken and one that is no property's is refused by 9.
#[tactic(auto, unfolding(crate::specs::Slopes::derivative_at, crate::specs::Slopes::all_known))]
pub fn quotient(a: Slopes, z: u64, x: u64, y: u64) -> Result<f64, Refusal>
    ensures { result ≡ derivative_at a z x y }
{
    at(
        a,
        Property::try_from(z)?,
        Property::try_from(x)?,
        Property::try_from(y)?,
    )
}
