// The desk: eight callers, 32 rows, one halving a turn. The host keeps one desk and lends it for each
// call; the call gives it back beside its answer. Every call takes every desk, every caller, kind and
// ticket: what it answers and what it leaves, and what a run of calls is worth, is said in crate runs.
#![tactic(auto)]

mod calls;

pub use calls::{collect, new_desk, peek, post, turn, withdraw};
pub use ledger::{Desk, Row};
pub use runs::{Answer, Outcome};
