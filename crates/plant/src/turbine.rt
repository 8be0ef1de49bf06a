// A turbine of three stages. A stage is settled by two queries: where an ideal expansion, which keeps
// the entropy, would end, (p,s), and where the real one ends, (p,h). All that reaches the turbine is
// its own numbers and the state that it asked for: there is no desk here and no other model.
mod positions;

use crate::model;
use crate::model::{Asks, Output};
use crate::turbine::positions::Place;
use refusals::Refusal;
use states::Single;
use text::Line;

// How many halvings settle a state that the turbine asks for: its shaft power wants fine ones.
pub(crate) const HALVINGS: u64 = 50;

// How much steam flows through the turbine, in kg/s.
const STEAM_FLOW: f64 = 50.0;

// The pressure of the steam at the inlet, in MPa.
const INLET_P: f64 = 8.0;

// The temperature of the steam at the inlet, in K.
const INLET_T: f64 = 773.15;

// The pressure behind the first stage, in MPa.
const FIRST_P: f64 = 4.0;

// The pressure behind the second stage, in MPa.
const SECOND_P: f64 = 2.0;

// The pressure behind the third stage, in MPa.
const THIRD_P: f64 = 1.0;

// The real fall in enthalpy of a stage, as a part of the ideal fall.
const EFFICIENCY: f64 = 0.88;

// How many states settle the turbine: its inlet's and two a stage.
const STATES: u64 = 7;

// Where in the turbine's room the bits of its states begin, behind its lines.
const BITS_FROM: usize = 2048;

// How far the turbine has come: whether it still asks, that is it has not passed its last stage and was
// never refused; how many of its states are settled; h in kJ/kg and s in kJ/(kg K) of the steam before
// the stage at hand; the enthalpy at which that stage will end, in kJ/kg; the shaft power of the stages
// behind it, in MW; and where in its room its next line and the bits of its next state go.
#[derive(Clone, Copy)]
pub(crate) struct Turbine {
    pub runs: bool,
    pub settled: u64,
    pub h: f64,
    pub s: f64,
    pub h_out: f64,
    pub power: f64,
    pub next_line: usize,
    pub next_bits: usize,
}

// The turbine of which no state is settled.
fn cold() -> Turbine {
    Turbine {
        runs: true,
        settled: 0,
        h: 0.0,
        s: 0.0,
        h_out: 0.0,
        power: 0.0,
        next_line: 0,
        next_bits: BITS_FROM,
    }
}

// The place whose state comes after so many.
fn place_after(settled: u64) -> Place {
    match settled {
        0 => Place::Inlet,
        1 => Place::IdealEnd(1),
        2 => Place::StageEnd(1),
        3 => Place::IdealEnd(2),
        4 => Place::StageEnd(2),
        5 => Place::IdealEnd(3),
        _ => Place::StageEnd(3),
    }
}

// The pressure behind a stage, in MPa.
fn pressure_behind(stage: u64) -> f64 {
    match stage {
        1 => FIRST_P,
        2 => SECOND_P,
        _ => THIRD_P,
    }
}

// What the turbine asks next: where an ideal expansion would end, at the entropy before the stage, and
// then the state behind the stage, at the enthalpy that the real expansion ends at.
pub(crate) fn asks(turbine: Turbine) -> Option<Asks> {
    if !turbine.runs {
        return None;
    }
    let place = place_after(turbine.settled);
    match place {
        Place::Inlet => None,
        Place::IdealEnd(stage) => Some(Asks::ByEntropy {
            p: pressure_behind(stage),
            s: turbine.s,
        }),
        Place::StageEnd(stage) => Some(Asks::ByEnthalpy {
            p: pressure_behind(stage),
            h: turbine.h_out,
        }),
    }
}

// The shaft power of the stage that the steam leaves in this state, in MW.
fn stage_power(turbine: Turbine, single: Single) -> f64 {
    let behind = single.state;
    STEAM_FLOW * (turbine.h - behind.h) / model::KW_IN_MW
}

// What the turbine gives off at a place: shaft power, behind a stage.
fn given(turbine: Turbine, place: Place, single: Single) -> Option<Output> {
    match place {
        Place::StageEnd(_) => Some(Output::ShaftPower(stage_power(turbine, single))),
        _ => None,
    }
}

// The turbine with the steam of this state before its next stage.
fn fed(turbine: Turbine, single: Single) -> Turbine {
    let properties = single.state;
    let mut after = turbine;
    after.h = properties.h;
    after.s = properties.s;
    after
}

// The ideal end of the stage is known, and with it the real one's enthalpy: the real expansion's fall
// in enthalpy is the efficiency times the ideal fall.
fn expanded_ideally(turbine: Turbine, single: Single) -> Turbine {
    let ideal = single.state;
    let mut after = turbine;
    after.h_out = turbine.h - EFFICIENCY * (turbine.h - ideal.h);
    after
}

// The state behind the stage is known, and with it the stage's power.
fn expanded(turbine: Turbine, single: Single) -> Turbine {
    let mut after = fed(turbine, single);
    after.power = turbine.power + stage_power(turbine, single);
    after
}

// What the state of a place makes of the turbine's numbers.
fn advanced(turbine: Turbine, place: Place, single: Single) -> Turbine {
    match place {
        Place::Inlet => fed(turbine, single),
        Place::IdealEnd(_) => expanded_ideally(turbine, single),
        Place::StageEnd(_) => expanded(turbine, single),
    }
}

// The turbine with one state more; it asks no more once that is the last.
fn counted(turbine: Turbine) -> Turbine {
    let mut after = turbine;
    if turbine.settled < STATES {
        after.settled = turbine.settled + 1;
        after.runs = after.settled < STATES;
    }
    after
}

// Writes a line of the turbine's: the title of the place, then what is known of it.
fn line(
    turbine: Turbine,
    place: Place,
    known: Result<Single, Refusal>,
    given: Option<Output>,
    room: &mut [u8],
) -> usize {
    let mut line = Line::new(room, turbine.next_line);
    positions::title(place, &mut line);
    model::told(known, given, &mut line);
    line.end()
}

// The turbine stops at a refusal, and says so.
fn refused(turbine: Turbine, place: Place, refusal: Refusal, room: &mut [u8]) -> Turbine {
    let mut after = turbine;
    after.runs = false;
    after.next_line = line(turbine, place, Err(refusal), None, room);
    after
}

// The turbine with the state of a place: its line is written, every bit of it kept.
fn settled(turbine: Turbine, place: Place, single: Single, room: &mut [u8]) -> Turbine {
    let given = given(turbine, place, single);
    let mut after = counted(advanced(turbine, place, single));
    after.next_line = line(turbine, place, Ok(single), given, room);
    let mut bits = Line::new(room, turbine.next_bits);
    model::bits(single, &mut bits);
    after.next_bits = bits.end();
    after
}

// The shaft power of all stages, once the last is passed.
fn summed_up(turbine: Turbine, room: &mut [u8]) -> Turbine {
    if turbine.settled < STATES {
        return turbine;
    }
    let what = b"  turbine in all: shaft power ";
    let mut after = turbine;
    let mut line = Line::new(room, turbine.next_line);
    model::megawatts(what, turbine.power, &mut line);
    after.next_line = line.end();
    after
}

// What the turbine becomes when it is told of what it asked for.
pub(crate) fn told(turbine: Turbine, known: Result<Single, Refusal>, room: &mut [u8]) -> Turbine {
    let place = place_after(turbine.settled);
    match known {
        Err(refusal) => refused(turbine, place, refusal, room),
        Ok(single) => summed_up(settled(turbine, place, single, room), room),
    }
}

// The turbine at its inlet, whose state is asked for directly.
pub(crate) fn inlet(room: &mut [u8]) -> Turbine {
    told(cold(), model::ask(INLET_P, INLET_T), room)
}
