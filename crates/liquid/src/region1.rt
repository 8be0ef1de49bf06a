// Region 1, liquid water: 002, Eq. (15), Tables 2, 3 and A2 (specs/Region1.antt).
ghost use Rattle.std.specs.Prelude.{◌≡◌};
ghost use Rattle.liquid.specs.Region1.{sum1, six1, gas_constant1, reducing_pressure1, reducing_temperature1, liquid_unrooted, liquid_response, point1, gamma1, unrooted_of1, response_of1};
ghost use Rattle.liquid.specs.Laws.{points1, properties1, responses1};

use crate::Liquid;
use properties::{Basic, Gamma, Point, Response, Unrooted, enthalpy, entropy, from_gamma};
use terms::{Six, Table};

const TABLE: Table<'static> = Table {
    i: &[
        0, 0, 0, 0, 0, 0, 0, 0, 1, 1, 1, 1, 1, 1, 2, 2, 2, 2, 2, 3, 3, 3, 4, 4, 4, 5, 8, 8, 21, 23,
        29, 30, 31, 32,
    ],
    j: &[
        -2, -1, 0, 1, 2, 3, 4, 5, -9, -7, -1, 0, 1, 3, -3, 0, 1, 3, 17, -4, 0, 6, -5, -2, 10, -8,
        -11, -6, -29, -31, -38, -39, -40, -41,
    ],
    n: &[
        0.14632971213167,
        -0.84548187169114,
        -0.37563603672040e1,
        0.33855169168385e1,
        -0.95791963387872,
        0.15772038513228,
        -0.16616417199501e-1,
        0.81214629983568e-3,
        0.28319080123804e-3,
        -0.60706301565874e-3,
        -0.18990068218419e-1,
        -0.32529748770505e-1,
        -0.21841717175414e-1,
        -0.52838357969930e-4,
        -0.47184321073267e-3,
        -0.30001780793026e-3,
        0.47661393906987e-4,
        -0.44141845330846e-5,
        -0.72694996297594e-15,
        -0.31679644845054e-4,
        -0.28270797985312e-5,
        -0.85205128120103e-9,
        -0.22425281908000e-5,
        -0.65171222895601e-6,
        -0.14341729937924e-12,
        -0.40516996860117e-6,
        -0.12734301741641e-8,
        -0.17424871230634e-9,
        -0.68762131295531e-18,
        0.14478307828521e-19,
        0.26335781662795e-22,
        -0.11947622640071e-22,
        0.18228094581404e-23,
        -0.93537087292458e-25,
    ],
};

// What Eq. (15) takes π from, and what it takes from τ.
const PI_SHIFT: f64 = 7.1;

const TAU_SHIFT: f64 = 1.222;

// What gamma, h and s take of the sum of Eq. (15), each its own: the compiler places a walk in line where it
// is called once, and leaves out what is not taken.
fn six(x: Point) -> Six
    ensures { result ≡ six1 x }
{
    TABLE.six(PI_SHIFT - x.pi, x.tau - TAU_SHIFT)
}

fn slope(x: Point) -> f64
    ensures { result ≡ sum1 x 0 1 }
{
    TABLE.slope_by_b(PI_SHIFT - x.pi, x.tau - TAU_SHIFT)
}

fn both(x: Point) -> Six
    ensures { result ≡ six1 x }
{
    TABLE.six(PI_SHIFT - x.pi, x.tau - TAU_SHIFT)
}

impl Gamma for Liquid {
    ghost unrooted_at = { liquid_unrooted };

    ghost response_at = { liquid_response };

    fn unrooted(self, x: Point) -> Unrooted {
        let d = self.gp - x.tau * self.gpt;
        let quotient = self.gp * self.gp / (d * d / (x.tau * x.tau * self.gtt) - self.gpp);
        from_gamma(x, self.g, self.gp, self.gt, self.gtt, quotient)
    }

    fn response(self, x: Point) -> Response {
        Response {
            alpha: 1.0 / x.t * (1.0 - x.tau * self.gpt / self.gp),
            kappa: 1.0 / (1000.0 * x.p) * -(x.pi * self.gpp / self.gp),
        }
    }
}

// Liquid water up to 623.15 K, from its saturation pressure to 100 MPa.
#[derive(Drop)]
pub struct Region1;

impl Basic for Region1 {
    type Gamma = Liquid;

    const R: f64 = 0.461526;

    const P: f64 = 16.53;

    const T: f64 = 1386.0;

    ghost R = { gas_constant1 };

    ghost P = { reducing_pressure1 };

    ghost T = { reducing_temperature1 };

    ghost point = { point1 };

    ghost gamma = { gamma1 };

    ghost unrooted_of = { unrooted_of1 };

    ghost response_of = { response_of1 };

    // Each derivative by π turns the sign of the sum in 7.1 - π.
    fn gamma(p: f64, t: f64) -> Liquid {
        let s = six(Self::point(p, t));
        Liquid {
            g: s.f,
            gp: -s.fa,
            gpp: s.faa,
            gt: s.fb,
            gtt: s.fbb,
            gpt: -s.fab,
        }
    }

    #[tactic(auto, unfolding(crate::specs::Region1::gamma1, crate::specs::Region1::unrooted_of1, properties::specs::Properties::unrooted_of))]
    fn h(p: f64, t: f64) -> f64 {
        let x = Self::point(p, t);
        enthalpy(x, slope(x))
    }

    #[tactic(auto, unfolding(crate::specs::Region1::gamma1, crate::specs::Region1::sum1, crate::specs::Region1::unrooted_of1, properties::specs::Properties::unrooted_of, terms::specs::Six::six_of))]
    fn s(p: f64, t: f64) -> f64 {
        let x = Self::point(p, t);
        let s = both(x);
        entropy(x, s.f, s.fb)
    }

    ghost points = { points1 };

    ghost properties = { properties1 };

    ghost responses = { responses1 };
}
