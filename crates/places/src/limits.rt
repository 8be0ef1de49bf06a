// The limits of the tables, and where region 1 ends and region 2 begins at p (specs/Places.antt).
ghost use Rattle.std.specs.Prelude.{◌≡◌};
ghost use Rattle.places.specs.Places.{saturates, liquid_end, vapour_start};

// The temperatures in K at which the tables turn: where T begins, regions 1 and 3 meet, region 3 ends,
// regions 2 and 5 meet, and T ends.
pub const T273: f64 = 273.15;

pub(crate) const T623: f64 = 623.15;

pub(crate) const T863: f64 = 863.15;

pub const T1073: f64 = 1073.15;

pub(crate) const T2273: f64 = 2273.15;

// The pressures in MPa: the house limit of (p,T), the least of the other kinds, the greatest of all, and
// the greatest of region 5.
pub(crate) const P_HOUSE: f64 = 0.000001;

pub const P_TRIPLE: f64 = 0.000611213;

pub(crate) const P_MOST: f64 = 100.0;

pub(crate) const P_MOST_5: f64 = 50.0;

// Whether p in MPa is at most P = ps(623.15), which is worked out once and for all.
pub fn saturates(p: f64) -> bool
    ensures { result ≡ saturates p }
{
    p <= 16.529164252604478
}

// The temperature in K at which region 1 ends at p: on the saturation line up to P.
pub fn liquid_end(p: f64) -> f64
    ensures { result ≡ liquid_end p }
{
    if saturates(p) {
        saturation_line::ts(p)
    } else {
        T623
    }
}

// The temperature in K at which region 2 begins at p: on the saturation line up to P.
#[tactic(auto, unfolding(crate::specs::Places::vapour_start))]
pub fn vapour_start(p: f64) -> f64
    ensures { result ≡ vapour_start p }
{
    if saturates(p) {
        saturation_line::ts(p)
    } else {
        boundaries::t_b23(p)
    }
}
