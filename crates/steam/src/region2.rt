// Region 2, vapour up to 1073.15 K: 002, Eqs. (19) to (21), Tables A4 and A5
// (specs/Region2.antt). The formulas are those of crate vapour.
ghost use Rattle.steam.specs.Region2.{gas_constant2, reducing_pressure2, reducing_temperature2, ideal2, residual2, shifted2, point2, gamma2, unrooted_of2, response_of2};
ghost use Rattle.steam.specs.Laws.{points2, properties2, responses2};

use properties::Basic;
use terms::Table;
use vapour::{Parts, Vapour, gamma_at, h_at, s_at};

const IDEAL: Table<'static> = Table {
    i: &[0, 0, 0, 0, 0, 0, 0, 0, 0],
    j: &[0, 1, -5, -4, -3, -2, -1, 2, 3],
    n: &[
        -0.96927686500217e1,
        0.10086655968018e2,
        -0.56087911283020e-2,
        0.71452738081455e-1,
        -0.40710498223928,
        0.14240819171444e1,
        -0.43839511319450e1,
        -0.28408632460772,
        0.21268463753307e-1,
    ],
};

const RESIDUAL: Table<'static> = Table {
    i: &[
        1, 1, 1, 1, 1, 2, 2, 2, 2, 2, 3, 3, 3, 3, 3, 4, 4, 4, 5, 6, 6, 6, 7, 7, 7, 8, 8, 9, 10, 10,
        10, 16, 16, 18, 20, 20, 20, 21, 22, 23, 24, 24, 24,
    ],
    j: &[
        0, 1, 2, 3, 6, 1, 2, 4, 7, 36, 0, 1, 3, 6, 35, 1, 2, 3, 7, 3, 16, 35, 0, 11, 25, 8, 36, 13,
        4, 10, 14, 29, 50, 57, 20, 35, 48, 21, 53, 39, 26, 40, 58,
    ],
    n: &[
        -0.17731742473213e-2,
        -0.17834862292358e-1,
        -0.45996013696365e-1,
        -0.57581259083432e-1,
        -0.50325278727930e-1,
        -0.33032641670203e-4,
        -0.18948987516315e-3,
        -0.39392777243355e-2,
        -0.43797295650573e-1,
        -0.26674547914087e-4,
        0.20481737692309e-7,
        0.43870667284435e-6,
        -0.32277677238570e-4,
        -0.15033924542148e-2,
        -0.40668253562649e-1,
        -0.78847309559367e-9,
        0.12790717852285e-7,
        0.48225372718507e-6,
        0.22922076337661e-5,
        -0.16714766451061e-10,
        -0.21171472321355e-2,
        -0.23895741934104e2,
        -0.59059564324270e-17,
        -0.12621808899101e-5,
        -0.38946842435739e-1,
        0.11256211360459e-10,
        -0.82311340897998e1,
        0.19809712802088e-7,
        0.10406965210174e-18,
        -0.10234747095929e-12,
        -0.10018179379511e-8,
        -0.80882908646985e-10,
        0.10693031879409,
        -0.33662250574171,
        0.89185845355421e-24,
        0.30629316876232e-12,
        -0.42002467698208e-5,
        -0.59056029685639e-25,
        0.37826947613457e-5,
        -0.12768608934681e-14,
        0.73087610595061e-28,
        0.55414715350778e-16,
        -0.94369707241210e-6,
    ],
};

// What the residual part takes from τ.
const TAU_SHIFT: f64 = 0.5;

// Vapour up to 1073.15 K and 100 MPa.
#[derive(Drop)]
pub struct Region2;

impl Parts for Region2 {
    ghost ideal = { ideal2 };

    ghost residual = { residual2 };

    ghost shifted = { shifted2 };

    fn ideal() -> Table<'static> {
        IDEAL
    }

    fn residual() -> Table<'static> {
        RESIDUAL
    }

    fn shifted(tau: f64) -> f64 {
        tau - TAU_SHIFT
    }
}

impl Basic for Region2 {
    type Gamma = Vapour;

    const R: f64 = 0.461526;

    const P: f64 = 1.0;

    const T: f64 = 540.0;

    ghost R = { gas_constant2 };

    ghost P = { reducing_pressure2 };

    ghost T = { reducing_temperature2 };

    ghost point = { point2 };

    ghost gamma = { gamma2 };

    ghost unrooted_of = { unrooted_of2 };

    ghost response_of = { response_of2 };

    // These three are those of Parts: no trait can fill in another trait's methods.
    #[tactic(auto, unfolding(crate::specs::Region2::gamma2))]
    fn gamma(p: f64, t: f64) -> Vapour {
        gamma_at::<Self>(Self::point(p, t))
    }

    #[tactic(auto, unfolding(crate::specs::Region2::gamma2, crate::specs::Region2::unrooted_of2))]
    fn h(p: f64, t: f64) -> f64 {
        h_at::<Self>(Self::point(p, t))
    }

    #[tactic(auto, unfolding(crate::specs::Region2::gamma2, crate::specs::Region2::unrooted_of2))]
    fn s(p: f64, t: f64) -> f64 {
        s_at::<Self>(Self::point(p, t))
    }

    ghost points = { points2 };

    ghost properties = { properties2 };

    ghost responses = { responses2 };
}
