// Equations by their regions' numbers, and the equations of the two phases (specs/Equations.antt).
ghost use Rattle.std.specs.Prelude.{◌≡◌};
ghost use Rattle.equations.specs.Equations.{region_of, is_of, equation_of};

use crate::{Equation, Phase};

// The number of an equation's region. Not a From: u64::from would not say which of its numbers it is.
pub fn region_of(equation: Equation) -> u64
    ensures { result ≡ region_of equation }
{
    match equation {
        Equation::Region1 => 1,
        Equation::Region2 => 2,
        Equation::Region3 => 3,
        Equation::Region5 => 5,
    }
}

// Whether an equation is that of a phase.
pub fn is_of(equation: Equation, phase: Phase) -> bool
    ensures { result ≡ is_of equation phase }
{
    equation == equation_of(phase)
}

// The equation of a phase. Not a From: a phase is no equation, it is worked by one.
pub fn equation_of(phase: Phase) -> Equation
    ensures { result ≡ equation_of phase }
{
    match phase {
        Phase::Liquid => Equation::Region1,
        Phase::Vapour => Equation::Region2,
    }
}
