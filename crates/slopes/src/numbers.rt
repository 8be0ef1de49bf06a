// The properties that a derivative names, and their numbers (specs/Slopes.antt).
ghost use Rattle.std.specs.Prelude.{◌≡◌};
ghost use Rattle.slopes.specs.Slopes.{known, all_known, Names};

use refusals::Refusal;

// p, T, v, u, h, s, g and f, in the order of their numbers, 1 to 8.
#[derive(Clone, Copy)]
pub(crate) enum Property {
    Pressure,
    Temperature,
    Volume,
    InternalEnergy,
    Enthalpy,
    Entropy,
    GibbsEnergy,
    HelmholtzEnergy,
}

impl TryFrom<u64> for Property {
    type Error = Refusal;

    ghost try_from_gives = { Names };

    fn try_from(n: u64) -> Result<Self, Refusal> {
        match n {
            1 => Ok(Property::Pressure),
            2 => Ok(Property::Temperature),
            3 => Ok(Property::Volume),
            4 => Ok(Property::InternalEnergy),
            5 => Ok(Property::Enthalpy),
            6 => Ok(Property::Entropy),
            7 => Ok(Property::GibbsEnergy),
            8 => Ok(Property::HelmholtzEnergy),
            _ => Err(Refusal::UnknownNumber),
        }
    }
}

// Whether n is the number of a property.
fn known(n: u64) -> bool
    ensures { result ≡ known n }
{
    Property::try_from(n).is_ok()
}

// Whether z, x and y are.
#[tactic(auto, unfolding(crate::specs::Slopes::all_known))]
pub fn all_known(z: u64, x: u64, y: u64) -> bool
    ensures { result ≡ all_known z x y }
{
    known(z) && (known(x) && known(y))
}
