// The demonstration. Two models that know nothing of each other, `turbine`, which wants fine states, and
// `heater`, which wants rough ones soon, sit at one desk, and the program prints what each was told. Then
// it runs the turbine again, with the heater gone and the turns dealt otherwise, and says whether the
// turbine's lines, and every bit of its states, are the same.
// Only this file has the desk in hand: a model is asked for its query and told its state (`seats`).
#![tactic(auto)]

mod heater;
mod model;
mod seats;
mod turbine;

use crate::seats::{Call, Seats, Step};
use desk::{Desk, Outcome};
use std::io;

// How many rounds settle the turbine, one for each of its queries. The heater is settled in the first.
const ROUNDS: u64 = 6;

// How many turns the host deals in a round before the posts, from these to the collects of rough states,
// and from there to those of fine ones.
#[derive(Clone, Copy)]
struct Pace {
    before: u64,
    rough: u64,
    fine: u64,
}

// The desk and who sits at it.
#[derive(Clone, Copy)]
struct Plant {
    desk: Desk,
    seats: Seats,
}

// Makes a call on the desk.
fn made(desk: Desk, call: Call) -> Outcome {
    match call {
        Call::Post {
            caller,
            kind,
            p,
            y,
            number,
        } => desk::post(desk, caller, kind, p, y, number),
        Call::Collect { caller, ticket } => desk::collect(desk, caller, ticket),
    }
}

// n turns of the desk, to whomever they fall.
fn turns(plant: Plant, n: u64) -> Plant {
    let t = turns::turns(plant.desk, n);
    let desk = t.desk;
    let seats = plant.seats;
    Plant { desk, seats }
}

// One call for each seat in turn, where there is one to make.
fn calls(plant: Plant, step: Step, room: &mut [u8], lines: &mut [u8]) -> Plant {
    let mut d = plant.desk;
    let mut seats = plant.seats;
    for i in 0..4 {
        if let Some(call) = seats::call_for(seats, i, step) {
            let o = made(d, call);
            d = o.desk;
            let kept = seats::ticketed(seats, i, o.answer);
            seats = seats::answered(kept, i, o.answer, room, lines);
        }
    }
    Plant { desk: d, seats }
}

// The same once n turns are dealt.
fn calls_after(plant: Plant, n: u64, step: Step, room: &mut [u8], lines: &mut [u8]) -> Plant {
    let later = turns(plant, n);
    calls(later, step, room, lines)
}

// The collects of a round, rough states before fine ones.
fn collects(plant: Plant, pace: Pace, room: &mut [u8], lines: &mut [u8]) -> Plant {
    let soon = calls_after(
        plant,
        pace.rough,
        Step::Collect(heater::HALVINGS),
        room,
        lines,
    );
    calls_after(
        soon,
        pace.fine,
        Step::Collect(turbine::HALVINGS),
        room,
        lines,
    )
}

// A round: whoever asks posts, and once the turns are dealt collects.
fn round(plant: Plant, pace: Pace, room: &mut [u8], lines: &mut [u8]) -> Plant {
    let posted = calls_after(plant, pace.before, Step::Post, room, lines);
    collects(posted, pace, room, lines)
}

// Prints what stands in a room from one place up to another.
fn show(rt: &impl Print, room: &[u8], from: usize, to: usize) -> io::Result<()> {
    if from <= to {
        if to <= room.len() {
            return streams::write_all(rt, &room[from..to]);
        }
    }
    Ok(())
}

// Prints what the models wrote since, the heater's lines, which come sooner, and then the turbine's.
fn show_since(
    rt: &impl Print,
    then: Seats,
    now: Seats,
    room: &[u8],
    lines: &[u8],
) -> io::Result<()> {
    let heater_then = then.heater;
    let heater = now.heater;
    show(rt, lines, heater_then.next_line, heater.next_line)?;
    let turbine_then = then.turbine;
    let turbine = now.turbine;
    show(rt, room, turbine_then.next_line, turbine.next_line)
}

// Prints what the models wrote at their first states.
fn show_first(rt: &impl Print, seats: Seats, room: &[u8], lines: &[u8]) -> io::Result<()> {
    let turbine = seats.turbine;
    show(rt, room, 0, turbine.next_line)?;
    let heater = seats.heater;
    show(rt, lines, 0, heater.next_line)
}

// All rounds at a new desk, each printed once it is over.
fn run(
    rt: &impl Print,
    start: Seats,
    pace: Pace,
    room: &mut [u8],
    lines: &mut [u8],
) -> io::Result<()> {
    show_first(rt, start, room, lines)?;
    let mut plant = Plant {
        desk: desk::new_desk(),
        seats: start,
    };
    for _ in 0..ROUNDS {
        let then = plant.seats;
        plant = round(plant, pace, room, lines);
        show_since(rt, then, plant.seats, room, lines)?;
    }
    Ok(())
}

// Run 1: the turbine and the heater at one desk. After 32 turns for each halving a query is settled,
// whoever else posts: a rough state after 320, a fine one after 1600.
fn beside_the_heater(rt: &impl Print, room: &mut [u8], lines: &mut [u8]) -> io::Result<()> {
    let pace = Pace {
        before: 0,
        rough: 320,
        fine: 1280,
    };
    let turbine = turbine::inlet(room);
    let heater = heater::water_in(lines);
    run(rt, seats::seated(turbine, heater), pace, room, lines)
}

// Run 2: the turbine alone, its turns dealt otherwise.
fn alone(rt: &impl Print, room: &mut [u8], lines: &mut [u8]) -> io::Result<()> {
    let pace = Pace {
        before: 7,
        rough: 320,
        fine: 1300,
    };
    let turbine = turbine::inlet(room);
    run(
        rt,
        seats::seated(turbine, heater::absent()),
        pace,
        room,
        lines,
    )
}

// Prints a line.
fn say(rt: &impl Print, line: &[u8]) -> io::Result<()> {
    streams::write_all(rt, line)
}

// What the two runs come to: a room has zeros where nothing was written, so the rooms are compared whole.
fn compare(rt: &impl Print, room: &[u8], room_alone: &[u8]) -> io::Result<()> {
    if room == room_alone {
        say(
            rt,
            b"the turbine's lines are the same in both runs, and so is every bit of its states: nothing of the heater's got into them\n",
        )
    } else {
        say(rt, b"the turbine's lines differ\n")
    }
}

fn main(rt: HostRuntime) -> io::Result<()> {
    let mut room = [0u8; 3072];
    let mut room_alone = [0u8; 3072];
    let mut lines = [0u8; 1024];
    say(
        &rt,
        b"turbine and heater at one desk: the heater collects its rough states after 320 turns, the turbine its fine ones after 1600\n",
    )?;
    beside_the_heater(&rt, &mut room, &mut lines)?;
    say(
        &rt,
        b"turbine alone: 7 turns before each post, 1620 between it and its collect\n",
    )?;
    alone(&rt, &mut room_alone, &mut lines)?;
    compare(&rt, &room, &room_alone)
}
