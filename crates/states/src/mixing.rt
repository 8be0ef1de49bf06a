// Wet states: the saturated liquid and vapour mixed by the quality (004; specs/Mixing.antt).
ghost use Rattle.std.specs.Prelude.{◌≡◌};
ghost use Rattle.properties.specs.Properties.{rooted_of};
ghost use Rattle.states.specs.Mixing.{quality, mixed, mixture_of, wet_of};

use crate::Wet;
use crate::marks::verified;
use liquid::Region1;
use properties::{Basic, Unrooted};
use steam::Region2;
use workings::{Given, given_of};

// a' + x·(a'' - a').
fn mixed(x: f64, liquid: f64, vapour: f64) -> f64
    ensures { result ≡ mixed x liquid vapour }
{
    liquid + x * (vapour - liquid)
}

// The quality x = (y - y') / (y'' - y').
fn quality(y: f64, least: f64, most: f64) -> f64
    ensures { result ≡ quality y least most }
{
    (y - least) / (most - least)
}

// The wet state at p and t that has the h or s asked.
#[tactic(auto, unfolding(crate::specs::Mixing::mixture_of, properties::specs::Properties::rooted_of))]
fn mixture(given: Given, p: f64, y: f64, t: f64, liquid: Unrooted, vapour: Unrooted) -> Wet
    ensures { result ≡ mixture_of given p y t (rooted_of liquid) (rooted_of vapour) }
{
    let least = given_of(given, liquid.h, liquid.s);
    let most = given_of(given, vapour.h, vapour.s);
    let x = quality(y, least, most);
    let h = mixed(x, liquid.h, vapour.h);
    let s = mixed(x, liquid.s, vapour.s);
    Wet {
        p,
        t,
        v: mixed(x, liquid.v, vapour.v),
        u: mixed(x, liquid.u, vapour.u),
        h,
        s,
        x,
        verified: verified(given, h, s, y),
    }
}

// The wet state at p in MPa and t in K, the Ts(p) of its caller, that has the h in kJ/kg or s in
// kJ/(kg K) asked.
#[tactic(auto, unfolding(crate::specs::Mixing::wet_of, liquid::specs::Region1::state1, liquid::specs::Region1::state_of1, steam::specs::Region2::state2, steam::specs::Region2::state_of2))]
pub fn wet_at(given: Given, p: f64, y: f64, t: f64) -> Wet
    ensures { result ≡ wet_of given p y t }
{
    let liquid = Region1::unrooted(p, t);
    let vapour = Region2::unrooted(p, t);
    mixture(given, p, y, t, liquid, vapour)
}
