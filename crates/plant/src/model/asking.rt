// What a model asks for and what it is told: queries and states, in the units of steam. Where a query
// goes, who else asks and when it is settled is nothing that a model is told.
use refusals::Refusal;
use reply::Answer;
use states::Single;

// What a model asks next: the state at p in MPa and h in kJ/kg, or at p and s in kJ/(kg K). It asks
// nothing once it has all that it needs or was refused.
#[derive(Clone, Copy)]
pub(crate) enum Asks {
    ByEnthalpy { p: f64, h: f64 },
    ByEntropy { p: f64, s: f64 },
}

// The state at p in MPa and t in K, asked for directly. A (p,T) query is never wet.
pub(crate) fn ask(p: f64, t: f64) -> Result<Single, Refusal> {
    match sums::from_pt(p, t)? {
        Answer::Single(a) => Ok(a),
        Answer::Wet(_) => Err(Refusal::WetOrSingular),
    }
}
