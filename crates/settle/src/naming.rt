// How a row of the desk names the phase that is halved: by the number of its region
// (specs/Phases.antt).
ghost use Rattle.std.specs.Prelude.{◌≡◌};
ghost use Rattle.settle.specs.Phases.{region_of, phase_of};

use equations::{Phase, equation_of, region_of};

// The region of a phase.
pub fn region(phase: Phase) -> u64
    ensures { result ≡ region_of phase }
{
    region_of(equation_of(phase))
}

// The phase of a region: 1 is liquid. A row of a sound desk has no other than 1 and 2; no TryFrom, since
// whether a row is right is asked of the desk, by `sound`.
pub fn phase(region: u64) -> Phase
    ensures { result ≡ phase_of region }
{
    if region == 1 {
        Phase::Liquid
    } else {
        Phase::Vapour
    }
}
