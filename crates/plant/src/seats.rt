// The seats at the desk, one for each query that a model may have open: seat 0 is the turbine's, seats 1
// to 3 are the heater's. The host makes a call for a seat and hands its answer to the model that sits
// there, and to no other.
ghost use Rattle.std.specs.Prelude.{◌<◌};

use crate::heater::{Heater, Place};
use crate::model::Asks;
use crate::turbine::Turbine;
use crate::{heater, turbine};
use desk::Answer;
use refusals::Refusal;
use states::Single;

// The numbers by which the desk knows the turbine and the heater.
const TURBINE: u64 = 2;

const HEATER: u64 = 5;

// The desk's kinds of queries, by the numbers that its calls take: by p in MPa and h in kJ/kg, and by p
// and s in kJ/(kg K).
const P_H: u64 = 2;

const P_S: u64 = 3;

// The models, and the ticket that each seat got last.
#[derive(Clone, Copy)]
pub(crate) struct Seats {
    pub turbine: Turbine,
    pub heater: Heater,
    pub tickets: [u64; 4],
}

// The two calls that a query takes; a collect is for the queries that were posted for so many halvings.
#[derive(Clone, Copy)]
pub(crate) enum Step {
    Post,
    Collect(u64),
}

// A call on the desk.
#[derive(Clone, Copy)]
pub(crate) enum Call {
    Post {
        caller: u64,
        kind: u64,
        p: f64,
        y: f64,
        number: u64,
    },
    Collect {
        caller: u64,
        ticket: u64,
    },
}

// The models on their seats, with no ticket yet.
pub(crate) fn seated(turbine: Turbine, heater: Heater) -> Seats {
    let tickets = [0u64; 4];
    Seats {
        turbine,
        heater,
        tickets,
    }
}

// The caller who sits there.
fn caller(seat: usize) -> u64 {
    match seat {
        0 => TURBINE,
        _ => HEATER,
    }
}

// How many halvings settle a state for the model who sits there.
fn number(seat: usize) -> u64 {
    match seat {
        0 => turbine::HALVINGS,
        _ => heater::HALVINGS,
    }
}

// What the heater asks about from a seat of its.
fn place(seat: usize) -> Place {
    match seat {
        1 => Place::BledSteam,
        2 => Place::Drain,
        _ => Place::WaterOut,
    }
}

// What the model on a seat asks.
fn asks(seats: Seats, seat: usize) -> Option<Asks> {
    match seat {
        0 => {
            let turbine = seats.turbine;
            turbine::asks(turbine)
        }
        _ => {
            let heater = seats.heater;
            heater::asks(heater, place(seat))
        }
    }
}

// The post of what is asked, for a number of halvings.
fn post(caller: u64, asks: Asks, number: u64) -> Call {
    match asks {
        Asks::ByEnthalpy { p, h } => Call::Post {
            caller,
            kind: P_H,
            p,
            y: h,
            number,
        },
        Asks::ByEntropy { p, s } => Call::Post {
            caller,
            kind: P_S,
            p,
            y: s,
            number,
        },
    }
}

// The call that is to be made for a seat: none where nothing is asked.
pub(crate) fn call_for(seats: Seats, seat: usize, step: Step) -> Option<Call>
    requires { seat < 4 }
{
    let asks = asks(seats, seat)?;
    match step {
        Step::Post => Some(post(caller(seat), asks, number(seat))),
        Step::Collect(halvings) => {
            if halvings != number(seat) {
                return None;
            }
            Some(Call::Collect {
                caller: caller(seat),
                ticket: seats.tickets[seat],
            })
        }
    }
}

// What an answer tells: the state or the refusal, or nothing that concerns a model.
fn heard_of(answer: Result<Answer, Refusal>) -> Option<Result<Single, Refusal>> {
    match answer {
        Ok(Answer::State { settled, .. }) => Some(Ok(settled.single)),
        Ok(_) => None,
        Err(refusal) => Some(Err(refusal)),
    }
}

// Keeps a seat's ticket, if that is the answer, for its collect.
pub(crate) fn ticketed(seats: Seats, seat: usize, answer: Result<Answer, Refusal>) -> Seats
    requires { seat < 4 }
{
    let mut after = seats;
    if let Ok(Answer::Ticket(number)) = answer {
        after.tickets[seat] = number;
    }
    after
}

// Tells the model on a seat what is known of its query. Each model writes into a room of its own.
fn told(
    seats: Seats,
    seat: usize,
    known: Result<Single, Refusal>,
    room: &mut [u8],
    lines: &mut [u8],
) -> Seats {
    let turbine = seats.turbine;
    let heater = seats.heater;
    let mut after = seats;
    match seat {
        0 => after.turbine = turbine::told(turbine, known, room),
        _ => after.heater = heater::told(heater, place(seat), known, lines),
    }
    after
}

// Tells the model on a seat what its call was answered.
pub(crate) fn answered(
    seats: Seats,
    seat: usize,
    answer: Result<Answer, Refusal>,
    room: &mut [u8],
    lines: &mut [u8],
) -> Seats {
    match heard_of(answer) {
        Some(known) => told(seats, seat, known, room, lines),
        None => seats,
    }
}
