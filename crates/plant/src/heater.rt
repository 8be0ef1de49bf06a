// A feedwater heater: bled steam warms the feedwater and leaves as its drain. It asks for its water in
// directly and then, all at once, for three states (p,h): the bled steam, the drain and the water out.
// All that reaches the heater is its own numbers and the states that it asked for: there is no desk
// here and no other model.
mod positions;

use crate::model;
use crate::model::{Asks, Output};
pub(crate) use positions::Place;
use refusals::Refusal;
use states::Single;
use text::Line;

// How many halvings settle a state that the heater asks for: rough ones will do, and come soon.
pub(crate) const HALVINGS: u64 = 10;

// How much feedwater flows through the heater, in kg/s.
const WATER_FLOW: f64 = 50.0;

// The pressure of the feedwater, which it keeps, in MPa.
const WATER_P: f64 = 9.0;

// The temperature of the water in, in K.
const WATER_IN_T: f64 = 413.15;

// How much bled steam comes in, and leaves as the drain, in kg/s.
const BLED_FLOW: f64 = 3.0;

// The pressure of the bled steam, which its drain keeps, in MPa.
const BLED_P: f64 = 0.6;

// The enthalpy of the bled steam, in kJ/kg.
const STEAM_H: f64 = 2900.0;

// The enthalpy of the drain, in kJ/kg.
const DRAIN_H: f64 = 650.0;

// How many states the heater still waits for, none once it was refused; the enthalpy of its water in,
// in kJ/kg; and where in its room its next line goes.
#[derive(Clone, Copy)]
pub(crate) struct Heater {
    pub waits_for: u64,
    pub h_in: f64,
    pub next_line: usize,
}

// A heater that is not there: it asks nothing and says nothing.
pub(crate) fn absent() -> Heater {
    Heater {
        waits_for: 0,
        h_in: 0.0,
        next_line: 0,
    }
}

// The heat that the steam leaves behind and the water takes up, in kW.
fn heat() -> f64 {
    BLED_FLOW * (STEAM_H - DRAIN_H)
}

// What the heater asks of a place as long as it waits for states.
pub(crate) fn asks(heater: Heater, place: Place) -> Option<Asks> {
    if heater.waits_for == 0 {
        return None;
    }
    match place {
        Place::WaterIn => None,
        Place::BledSteam => Some(Asks::ByEnthalpy {
            p: BLED_P,
            h: STEAM_H,
        }),
        Place::Drain => Some(Asks::ByEnthalpy {
            p: BLED_P,
            h: DRAIN_H,
        }),
        Place::WaterOut => Some(Asks::ByEnthalpy {
            p: WATER_P,
            h: heater.h_in + heat() / WATER_FLOW,
        }),
    }
}

// What the heater gives off at a place: heat, to the water out.
fn given(place: Place) -> Option<Output> {
    match place {
        Place::WaterOut => Some(Output::Heat(heat() / model::KW_IN_MW)),
        _ => None,
    }
}

// Where the heater stands once this is known of a place: a refusal stops it.
fn advanced(heater: Heater, place: Place, known: Result<Single, Refusal>) -> Heater {
    let mut after = heater;
    match known {
        Err(_) => after.waits_for = 0,
        Ok(single) => match place {
            Place::WaterIn => after.h_in = single.state.h,
            _ => after.waits_for = heater.waits_for.saturating_sub(1),
        },
    }
    after
}

// What the heater becomes when it is told of a place that it asked for; it writes its line.
pub(crate) fn told(
    heater: Heater,
    place: Place,
    known: Result<Single, Refusal>,
    room: &mut [u8],
) -> Heater {
    let mut line = Line::new(room, heater.next_line);
    positions::title(place, &mut line);
    model::told(known, given(place), &mut line);
    let mut after = advanced(heater, place, known);
    after.next_line = line.end();
    after
}

// The heater with its water in, whose state is asked for directly.
pub(crate) fn water_in(room: &mut [u8]) -> Heater {
    let mut heater = absent();
    heater.waits_for = 3;
    told(
        heater,
        Place::WaterIn,
        model::ask(WATER_P, WATER_IN_T),
        room,
    )
}
