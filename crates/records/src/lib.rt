// A run of desk calls in bytes, read record by record. A record is six little-endian u64s, op, caller,
// a, b, c and d; the desk that op 6 gives stands behind its record as 361 more. What is read is said in
// specs/Records.antt.
#![tactic(auto)]

mod deeds;
mod desks;

pub use deeds::read;
pub use desks::desk_in;

// A call of the desk that a record asks for, with the numbers that stand there, right or not: the desk judges
// them.
#[derive(Clone, Copy)]
pub enum Call {
    Post {
        caller: u64,
        kind: u64,
        p: f64,
        y: f64,
        number: u64,
    },
    Peek {
        caller: u64,
        ticket: u64,
    },
    Collect {
        caller: u64,
        ticket: u64,
    },
    Withdraw {
        caller: u64,
        ticket: u64,
    },
}

// What a record asks for: a call, so many turns, that the desk be the one behind it, or that the desk
// be shown.
#[derive(Clone, Copy)]
pub enum Deed {
    Asked(Call),
    Turns(u64),
    Given,
    Shown,
}
