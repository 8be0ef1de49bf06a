// Region 3, water and steam about the critical point: 002, Eq. (25), Tables 9, 10 and A9
// (specs/Region3.antt).
ghost use Rattle.std.specs.Prelude.{◌≡◌};
ghost use Rattle.terms.specs.Sum.{sum_of};
ghost use Rattle.dense.specs.Region3.{table3, point3, six3, slope_of3, phi_of3, phi3, pressure_by3, pressure_of3, pressure3, unrooted_at3, unrooted_of3, state_of3, state3, response_at3, response_of3};

use crate::{Dense, DensePoint};
use properties::{PressureResponse, State, Unrooted, rooted};
use terms::{Six, Table};

// Table A9 but for its first row, that of ln δ.
const TABLE: Table<'static> = Table {
    i: &[
        0, 0, 0, 0, 0, 0, 0, 1, 1, 1, 1, 2, 2, 2, 2, 2, 2, 3, 3, 3, 3, 3, 4, 4, 4, 4, 5, 5, 5, 6,
        6, 6, 7, 8, 9, 9, 10, 10, 11,
    ],
    j: &[
        0, 1, 2, 7, 10, 12, 23, 2, 6, 15, 17, 0, 2, 6, 7, 22, 26, 0, 2, 4, 16, 26, 0, 2, 4, 26, 1,
        3, 26, 0, 2, 26, 2, 26, 2, 26, 0, 1, 26,
    ],
    n: &[
        -0.15732845290239e2,
        0.20944396974307e2,
        -0.76867707878716e1,
        0.26185947787954e1,
        -0.28080781148620e1,
        0.12053369696517e1,
        -0.84566812812502e-2,
        -0.12654315477714e1,
        -0.11524407806681e1,
        0.88521043984318,
        -0.64207765181607,
        0.38493460186671,
        -0.85214708824206,
        0.48972281541877e1,
        -0.30502617256965e1,
        0.39420536879154e-1,
        0.12558408424308,
        -0.27999329698710,
        0.13899799569460e1,
        -0.20189915023570e1,
        -0.82147637173963e-2,
        -0.47596035734923,
        0.43984074473500e-1,
        -0.44476435428739,
        0.90572070719733,
        0.70522450087967,
        0.10770512626332,
        -0.32913623258954,
        -0.50871062041158,
        -0.22175400873096e-1,
        0.94260751665092e-1,
        0.16436278447961,
        -0.13503372241348e-1,
        -0.14834345352472e-1,
        0.57922953628084e-3,
        0.32308904703711e-2,
        0.80964802996215e-4,
        -0.16557679795037e-3,
        -0.44923899061815e-4,
    ],
};

// Above 623.15 K and up to 863.15 K, at pressures above those of region 2. Its equation is in density and T, so
// it is none of `properties::Basic`.
#[derive(Clone, Copy)]
pub struct Region3;

impl Region3 {
    // The gas constant R in kJ/(kg K).
    pub const R: f64 = 0.461526;

    // The reducing density ρ* in kg/m³, that of the critical point.
    pub const D: f64 = 322.0;

    // The reducing temperature T* in K, that of the critical point.
    pub const T: f64 = 647.096;

    // The coefficient of ln δ.
    const N1: f64 = 0.10658070028513e1;

    // δ and τ, beside what they are made of.
    pub fn point(density: f64, t: f64) -> DensePoint
        ensures { result ≡ point3 density t }
    {
        DensePoint {
            density,
            t,
            delta: density / Self::D,
            tau: Self::T / t,
        }
    }

    // What phi and pressure take of the sum of Eq. (25), each its own: the compiler places a walk in line
    // where it is called once, and leaves out what is not taken.
    fn six(x: DensePoint) -> Six
        ensures { result ≡ six3 x }
    {
        TABLE.six(x.delta, x.tau)
    }

    fn slope(x: DensePoint) -> f64
        ensures { result ≡ sum_of table3 1 0 x.delta x.tau }
    {
        TABLE.slope_by_a(x.delta, x.tau)
    }

    // φδ from its sum.
    fn slope_of(x: DensePoint, sum: f64) -> f64
        ensures { result ≡ slope_of3 x sum }
    {
        Self::N1 / x.delta + sum
    }

    // φ and its derivatives, from the sums.
    fn phi_of(x: DensePoint, s: Six) -> Dense
        ensures { result ≡ phi_of3 x s }
    {
        let log = elementary::log(x.delta);
        let fd = Self::slope_of(x, s.fa);
        Dense {
            f: Self::N1 * log + s.f,
            fd,
            fdd: -(Self::N1 / (x.delta * x.delta)) + s.faa,
            ft: s.fb,
            ftt: s.fbb,
            fdt: s.fab,
        }
    }

    // φ and its derivatives.
    #[tactic(auto, unfolding(crate::specs::Region3::phi3))]
    pub fn phi(density: f64, t: f64) -> Dense
        ensures { result ≡ phi3 density t }
    {
        let x = Self::point(density, t);
        Self::phi_of(x, Self::six(x))
    }

    // The pressure in MPa from φδ.
    fn pressure_by(x: DensePoint, fd: f64) -> f64
        ensures { result ≡ pressure_by3 x fd }
    {
        x.density * (Self::R * x.t) * x.delta * fd / 1000.0
    }

    // The pressure in MPa from what phi gave for density and t.
    #[tactic(auto, unfolding(crate::specs::Region3::pressure_of3))]
    pub fn pressure_of(density: f64, t: f64, f: Dense) -> f64
        ensures { result ≡ pressure_of3 density t f }
    {
        Self::pressure_by(Self::point(density, t), f.fd)
    }

    // The pressure in MPa, from the one sum that it needs.
    #[tactic(auto, unfolding(crate::specs::Region3::pressure_of3, crate::specs::Region3::phi3, crate::specs::Region3::phi_of3, terms::specs::Six::six_of))]
    pub fn pressure(density: f64, t: f64) -> f64
        ensures { result ≡ pressure3 density t }
    {
        let x = Self::point(density, t);
        Self::pressure_by(x, Self::slope_of(x, Self::slope(x)))
    }

    // The six properties with w squared.
    fn unrooted_at(x: DensePoint, f: Dense) -> Unrooted
        ensures { result ≡ unrooted_at3 x f }
    {
        let rt = Self::R * x.t;
        let c = x.delta * f.fd - x.delta * x.tau * f.fdt;
        let k = 2.0 * x.delta * f.fd + x.delta * x.delta * f.fdd;
        Unrooted {
            v: 1.0 / x.density,
            u: rt * x.tau * f.ft,
            h: rt * (x.tau * f.ft + x.delta * f.fd),
            s: Self::R * (x.tau * f.ft - f.f),
            cp: Self::R * (-(x.tau * x.tau) * f.ftt + c * c / k),
            ww: 1000.0 * rt * (k - c * c / (x.tau * x.tau * f.ftt)),
        }
    }

    // The six properties with w squared, from what phi gave for density and t.
    #[tactic(auto, unfolding(crate::specs::Region3::unrooted_of3))]
    pub fn unrooted_of(density: f64, t: f64, f: Dense) -> Unrooted
        ensures { result ≡ unrooted_of3 density t f }
    {
        Self::unrooted_at(Self::point(density, t), f)
    }

    // The six properties from what phi gave for density and t.
    #[tactic(auto, unfolding(crate::specs::Region3::state_of3))]
    pub fn state_of(density: f64, t: f64, f: Dense) -> State
        ensures { result ≡ state_of3 density t f }
    {
        rooted(Self::unrooted_of(density, t, f))
    }

    // The six properties.
    #[tactic(auto, unfolding(crate::specs::Region3::state3))]
    pub fn state(density: f64, t: f64) -> State
        ensures { result ≡ state3 density t }
    {
        Self::state_of(density, t, Self::phi(density, t))
    }

    // α, β and cv.
    fn response_at(x: DensePoint, f: Dense) -> PressureResponse
        ensures { result ≡ response_at3 x f }
    {
        PressureResponse {
            alpha: 1.0 / x.t * (1.0 - x.tau * f.fdt / f.fd),
            beta: x.density * (2.0 + x.delta * f.fdd / f.fd),
            cv: -Self::R * (x.tau * x.tau) * f.ftt,
        }
    }

    // α, β and cv from what phi gave for density and t.
    #[tactic(auto, unfolding(crate::specs::Region3::response_of3))]
    pub fn response_of(density: f64, t: f64, f: Dense) -> PressureResponse
        ensures { result ≡ response_of3 density t f }
    {
        Self::response_at(Self::point(density, t), f)
    }
}
