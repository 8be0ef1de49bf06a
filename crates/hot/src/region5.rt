// Region 5, vapour above 1073.15 K: R7-97, Eqs. (32) to (34), Tables 37 and 38 (specs/Region5.antt). The
// formulas are those of crate vapour.
ghost use Rattle.hot.specs.Region5.{gas_constant5, reducing_pressure5, reducing_temperature5, ideal5, residual5, shifted5, point5, gamma5, unrooted_of5, response_of5};
ghost use Rattle.hot.specs.Laws.{points5, properties5, responses5};

use properties::Basic;
use terms::Table;
use vapour::{Parts, Vapour, gamma_at, h_at, s_at};

const IDEAL: Table<'static> = Table {
    i: &[0, 0, 0, 0, 0, 0],
    j: &[0, 1, -3, -2, -1, 2],
    n: &[
        -0.13179983674201e2,
        0.68540841634434e1,
        -0.24805148933466e-1,
        0.36901534980333,
        -0.31161318213925e1,
        -0.32961626538917,
    ],
};

const RESIDUAL: Table<'static> = Table {
    i: &[1, 1, 1, 2, 2, 3],
    j: &[1, 2, 3, 3, 9, 7],
    n: &[
        0.15736404855259e-2,
        0.90153761673944e-3,
        -0.50270077677648e-2,
        0.22440037409485e-5,
        -0.41163275453471e-5,
        0.37919454822955e-7,
    ],
};

// Vapour from 1073.15 K to 2273.15 K, up to 50 MPa.
#[derive(Drop)]
pub struct Region5;

impl Parts for Region5 {
    ghost ideal = { ideal5 };

    ghost residual = { residual5 };

    ghost shifted = { shifted5 };

    fn ideal() -> Table<'static> {
        IDEAL
    }

    fn residual() -> Table<'static> {
        RESIDUAL
    }

    fn shifted(tau: f64) -> f64 {
        tau
    }
}

impl Basic for Region5 {
    type Gamma = Vapour;

    const R: f64 = 0.461526;

    const P: f64 = 1.0;

    const T: f64 = 1000.0;

    ghost R = { gas_constant5 };

    ghost P = { reducing_pressure5 };

    ghost T = { reducing_temperature5 };

    ghost point = { point5 };

    ghost gamma = { gamma5 };

    ghost unrooted_of = { unrooted_of5 };

    ghost response_of = { response_of5 };

    // These three are those of Parts: no trait can fill in another trait's methods.
    #[tactic(auto, unfolding(crate::specs::Region5::gamma5))]
    fn gamma(p: f64, t: f64) -> Vapour {
        gamma_at::<Self>(Self::point(p, t))
    }

    #[tactic(auto, unfolding(crate::specs::Region5::gamma5, crate::specs::Region5::unrooted_of5))]
    fn h(p: f64, t: f64) -> f64 {
        h_at::<Self>(Self::point(p, t))
    }

    #[tactic(auto, unfolding(crate::specs::Region5::gamma5, crate::specs::Region5::unrooted_of5))]
    fn s(p: f64, t: f64) -> f64 {
        s_at::<Self>(Self::point(p, t))
    }

    ghost points = { points5 };

    ghost properties = { properties5 };

    ghost responses = { responses5 };
}
