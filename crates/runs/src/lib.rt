// What a call of the desk answers and leaves, by its rules, and what a run of calls is worth. There is no code
// here: the calls are those of crate desk, and their contracts cite specs/Model.antt. The paper's number and
// values of an answer are in specs/Answers.antt, the order of refusals in specs/Refusals.antt, what a run is in
// specs/Runs.antt; proofs/Demand.antt has the theorems.
#![tactic(auto)]

use ledger::Desk;
use refusals::Refusal;
use settle::Settled;

// What a call answers that is not refused: a post a ticket, a turn that it halved or that there was
// nothing to halve, a peek the halvings done and the bracket, a collect the state, the number of halvings
// that were posted for and the bracket that they left, a withdraw that the row is free.
#[derive(Clone, Copy)]
pub enum Answer {
    Ticket(u64),
    Halved,
    Idle,
    Shown {
        halvings: u64,
        lo: f64,
        hi: f64,
    },
    State {
        settled: Settled,
        number: u64,
        lo: f64,
        hi: f64,
    },
    Freed,
}

// A call's answer, or why it is refused, and the desk as it leaves it: a refused call gives it back too.
#[derive(Clone, Copy)]
pub struct Outcome {
    pub answer: Result<Answer, Refusal>,
    pub desk: Desk,
}
