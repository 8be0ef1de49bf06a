// The square root of an f64, rounded to the nearest, and the fourth root (specs/Root.antt).
ghost use Rattle.std.specs.Prelude.{◌≡◌};
ghost use Rattle.elementary.specs.Root.{root_of, fourth_root_of};

// The f64 nearest the root of x. Either zero and plus infinity give themselves; what is negative,
// and NaN, give NaN.
#[tactic(auto, using(crate::proofs::Sqrt::sqrt_is))]
pub fn root(x: f64) -> f64
    ensures { result ≡ root_of x }
{
    x.sqrt()
}

// A root of a root.
#[tactic(auto, unfolding(crate::specs::Root::fourth_root_of))]
pub fn fourth_root(x: f64) -> f64
    ensures { result ≡ fourth_root_of x }
{
    root(root(x))
}
