// Derivatives at the state that a query gives (specs/Quotients.antt).
ghost use Rattle.std.specs.Prelude.{◌≡◌};
ghost use Rattle.sums.specs.Quotients.{quotient_of};

use crate::kinds::Kind;
use crate::outcomes::{Found, of_hs, of_py};
use places::place_pt;
use refusals::Refusal;
use workings::quotient_at;

// The derivative of property z by property x at constant y, numbered 1 to 8, at the state that a
// query gives; kind, c and d are those of `query`. All four are numbers, since any is taken and one that names
// nothing is refused by 9.
pub fn quotient(kind: u64, c: f64, d: f64, z: u64, x: u64, y: u64) -> Result<f64, Refusal>
    ensures { result ≡ quotient_of kind c d z x y }
{
    if !slopes::all_known(z, x, y) {
        return Err(Refusal::UnknownNumber);
    }
    match Kind::try_from(kind)? {
        Kind::Pt => quotient_at(place_pt(c, d)?, c, d, z, x, y),
        Kind::Py(given) => match of_py(given, c, d)? {
            Found::Single(a) => quotient_at(a.equation, a.p, a.t, z, x, y),
            Found::Wet(_) => Err(Refusal::WetOrSingular),
        },
        Kind::Hs => slopes::quotient(of_hs(c, d)?.worked.slopes, z, x, y),
    }
}
