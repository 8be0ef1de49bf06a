// The settling layer: what the desk may know of steam. A query of (p,h) or (p,s) is judged at its
// post, its temperature bracket is halved one step a turn, and at the end its state is worked at the
// middle of the bracket. What each call answers is said in specs/.
#![tactic(auto)]

mod naming;

ghost use Rattle.std.specs.Prelude.{◌≡◌, cond, Some, None};
ghost use Rattle.settle.specs.Settle.{posted_of, given_of, bracket_of, judged_of, halved_of, settled_of};

use brackets::Bracket;
use equations::{Phase, equation_of};
pub use naming::{phase, region};
use places::{Side, place_py};
use refusals::Refusal;
use states::Single;
use workings::Given;

// What judging a post finds: the phase, and the bracket lo to hi in K to halve.
#[derive(Clone, Copy)]
pub struct Judged {
    pub phase: Phase,
    pub lo: f64,
    pub hi: f64,
}

// What a collect hands out: the state of one phase that the halvings settled, with its mark.
#[derive(Clone, Copy)]
pub struct Settled {
    pub single: Single,
}

// What a kind that may be posted gives beside p: 2, (p,h), gives h, and 3, (p,s), gives s.
fn posted(kind: u64) -> Option<Given>
    ensures { result ≡ cond (posted_of kind) (Some (given_of kind)) None }
{
    match kind {
        2 => Some(Given::Enthalpy),
        3 => Some(Given::Entropy),
        _ => None,
    }
}

// What the kind of a row gives beside p. A row of a sound desk has no other than 2 and 3.
fn given(kind: u64) -> Given
    ensures { result ≡ given_of kind }
{
    posted(kind).unwrap_or(Given::Entropy)
}

// The temperature bracket in K of a phase at p: liquid from 273.15 K, vapour up to 1073.15 K.
fn first_bracket(phase: Phase, p: f64) -> Bracket
    ensures { result ≡ bracket_of phase p }
{
    match phase {
        Phase::Liquid => Bracket {
            lo: places::T273,
            hi: places::liquid_end(p),
        },
        Phase::Vapour => Bracket {
            lo: places::vapour_start(p),
            hi: places::T1073,
        },
    }
}

// A post of kind 2, (p,h), or 3, (p,s), judged. Another kind is refused by 9, a wet query by 8. The kind is a
// number, here and below, since a caller may post any and a row of the desk holds it.
pub fn judge(kind: u64, p: f64, y: f64) -> Result<Judged, Refusal>
    ensures { result ≡ judged_of kind p y }
{
    let given = posted(kind).ok_or(Refusal::UnknownNumber)?;
    match place_py(given, p, y)? {
        Side::Phase(phase) => {
            let b = first_bracket(phase, p);
            Ok(Judged {
                phase,
                lo: b.lo,
                hi: b.hi,
            })
        }
        Side::Wet(_) => Err(Refusal::WetOrSingular),
    }
}

// One halving, by whether the property at the middle is below the one asked. Only that one property is
// worked. lo and hi are given one by one, as a row of the desk holds them.
#[tactic(auto, unfolding(crate::specs::Settle::halved_of, crate::specs::Settle::below_of))]
pub fn halve(kind: u64, phase: Phase, p: f64, y: f64, lo: f64, hi: f64) -> Bracket
    ensures { result ≡ halved_of kind phase p y lo hi }
{
    let b = Bracket { lo, hi };
    let below = workings::property(given(kind), phase, p, b.middle()) < y;
    b.half(below)
}

// The state at the middle of the bracket, with its mark.
#[tactic(auto, unfolding(crate::specs::Settle::settled_of))]
pub fn settled_at(kind: u64, phase: Phase, p: f64, y: f64, lo: f64, hi: f64) -> Settled
    ensures { result ≡ settled_of kind phase p y lo hi }
{
    let b = Bracket { lo, hi };
    let single = states::marked(given(kind), equation_of(phase), p, y, b.middle());
    Settled { single }
}
