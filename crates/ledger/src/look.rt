// Looking through the rows of a desk: one search for all, and one count.
ghost use Rattle.std.specs.Prelude.{◌≡◌};
ghost use Rattle.ledger.specs.Rows.{blank, wants, of_caller, tally, onward, found};

use super::{Desk, Row, Want};

// A row as in a new desk.
pub fn blank_row() -> Row
    ensures { result ≡ blank }
{
    Row {
        filled: false,
        caller: 0,
        ticket: 0,
        kind: 0,
        region: 0,
        p: 0.0,
        y: 0.0,
        number: 0,
        halvings: 0,
        lo: 0.0,
        hi: 0.0,
    }
}

impl Want {
    // Whether r is a row that is looked for.
    #[tactic(auto, unfolding(crate::specs::Rows::vacant, crate::specs::Rows::unfinished, crate::specs::Rows::held))]
    fn is_met(self, r: Row) -> bool
        ensures { result ≡ wants self r }
    {
        match self {
            Want::Vacant => !r.filled,
            Want::Unfinished => r.filled && r.halvings < r.number,
            Want::Held(caller, ticket) => r.filled && r.caller == caller && r.ticket == ticket,
        }
    }
}

// The first row that is looked for at or after the row `from`, round the end: how many places on it
// lies, if there is one.
pub fn places_on(d: &Desk, w: Want, from: usize) -> Option<usize>
    ensures { result ≡ found (onward (wants w) d.now from) }
{
    (0..32).position(|k| w.is_met(d.rows[(from % 32 + k) % 32]))
}

// How many rows a caller has open.
pub fn count_open(d: &Desk, caller: u64) -> u64
    ensures { result ≡ tally (of_caller caller) d.now }
{
    d.rows
        .iter()
        .filter(|r| r.filled && r.caller == caller)
        .count() as u64
}
