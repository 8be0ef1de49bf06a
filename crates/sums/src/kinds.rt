// The kinds of query, and their numbers (specs/Queries.antt).
ghost use Rattle.sums.specs.Queries.{Names};

use refusals::Refusal;
use workings::Given;

// (p,T), p with an h or s, and (h,s).
#[derive(Clone, Copy)]
pub(crate) enum Kind {
    Pt,
    Py(Given),
    Hs,
}

impl TryFrom<u64> for Kind {
    type Error = Refusal;

    ghost try_from_gives = { Names };

    fn try_from(n: u64) -> Result<Self, Refusal> {
        match n {
            1 => Ok(Kind::Pt),
            2 => Ok(Kind::Py(Given::Enthalpy)),
            3 => Ok(Kind::Py(Given::Entropy)),
            4 => Ok(Kind::Hs),
            _ => Err(Refusal::UnknownNumber),
        }
    }
}
