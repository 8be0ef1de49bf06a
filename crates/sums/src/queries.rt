// The four kinds of query, and the query whose kind is a number (specs/Queries.antt).
ghost use Rattle.std.specs.Prelude.{◌≡◌};
ghost use Rattle.workings.specs.declared.Given.TheVariants.{Enthalpy, Entropy};
ghost use Rattle.sums.specs.Queries.{answer_pt, answer_py, answer_hs, answer_of};

use crate::kinds::Kind;
use crate::outcomes::{Found, of_hs, of_py};
use places::place_pt;
use refusals::Refusal;
use reply::Answer;
use states::{handed_out, marked, state_at};
use workings::Given;

// From p in MPa and T in K, marked by whether its equation comes back to p and T.
#[tactic(auto, unfolding(crate::specs::Queries::answer_pt))]
pub fn from_pt(p: f64, t: f64) -> Result<Answer, Refusal>
    ensures { result ≡ answer_pt p t }
{
    let equation = place_pt(p, t)?;
    Ok(Answer::Single(state_at(equation, p, t)))
}

// From p in MPa and an h in kJ/kg or s in kJ/(kg K).
fn from_py(given: Given, p: f64, y: f64) -> Result<Answer, Refusal>
    ensures { result ≡ answer_py given p y }
{
    match of_py(given, p, y)? {
        Found::Single(a) => Ok(Answer::Single(marked(given, a.equation, a.p, y, a.t))),
        Found::Wet(a) => Ok(Answer::Wet(a)),
    }
}

// From p in MPa and h in kJ/kg.
pub fn from_ph(p: f64, h: f64) -> Result<Answer, Refusal>
    ensures { result ≡ answer_py Enthalpy p h }
{
    from_py(Given::Enthalpy, p, h)
}

// From p in MPa and s in kJ/(kg K).
pub fn from_ps(p: f64, s: f64) -> Result<Answer, Refusal>
    ensures { result ≡ answer_py Entropy p s }
{
    from_py(Given::Entropy, p, s)
}

// From h in kJ/kg and s in kJ/(kg K).
pub fn from_hs(h: f64, s: f64) -> Result<Answer, Refusal>
    ensures { result ≡ answer_hs h s }
{
    let a = of_hs(h, s)?;
    Ok(Answer::Single(handed_out(a)))
}

// From the values of a kind: 1 to 4 are (p,T), (p,h), (p,s), (h,s). The kind is a number, since any is taken
// and another is refused by 9.
pub fn query(kind: u64, x: f64, y: f64) -> Result<Answer, Refusal>
    ensures { result ≡ answer_of kind x y }
{
    match Kind::try_from(kind)? {
        Kind::Pt => from_pt(x, y),
        Kind::Py(given) => from_py(given, x, y),
        Kind::Hs => from_hs(x, y),
    }
}
