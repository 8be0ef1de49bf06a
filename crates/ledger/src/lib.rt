// The desk as data: 32 rows, a count of tickets for each of eight callers, and a pointer. Rows are
// looked for and counted here, and a desk is found sound or not; what the calls do with it is the
// crate desk's. Every function takes every desk: what it answers is said in specs/Rows.antt.
#![tactic(auto)]

mod look;
mod sound;

pub use look::{blank_row, count_open, places_on};
pub use sound::{TICKETS, is_nameable, is_sound};

// A row. Filled, it holds a caller's ticket, the query of kind 2 (p,h) or 3 (p,s) at p in MPa and y in
// kJ/kg or kJ/(kg K), the region fixed at the post, the number of halvings that the post named, how many
// of them are done and the bracket lo to hi in K that they left. No Option of a job, no enums for kind and
// region: a desk may hold any bits, and whether these are right is `sound`, whose refusal is 15.
#[derive(Clone, Copy)]
pub struct Row {
    pub filled: bool,
    pub caller: u64,
    pub ticket: u64,
    pub kind: u64,
    pub region: u64,
    pub p: f64,
    pub y: f64,
    pub number: u64,
    pub halvings: u64,
    pub lo: f64,
    pub hi: f64,
}

// The rows, how many tickets each caller was given, and the row at which the next turn starts looking.
#[derive(Clone, Copy)]
pub struct Desk {
    pub rows: [Row; 32],
    pub counts: [u64; 8],
    pub pointer: u64,
}

// Which row is looked for: an empty one, one with halvings to go, or that of a caller's ticket. No closure:
// what is found is `onward` of the test that a value of this type names.
#[derive(Clone, Copy)]
pub enum Want {
    Vacant,
    Unfinished,
    Held(u64, u64),
}
