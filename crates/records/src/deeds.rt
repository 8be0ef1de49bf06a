// What a record asks for (specs/Records.antt).
ghost use Rattle.std.specs.Prelude.{◌≡◌};
ghost use Rattle.records.specs.Records.{called, plain_of, deed_of};

use crate::desks::rows_known;
use crate::{Call, Deed};

// A call that names a ticket: 3 peek, 4 collect, 5 withdraw.
#[tactic(auto, unfolding(crate::specs::Records::called))]
fn by_ticket(op: u64, caller: u64, ticket: u64) -> Option<Deed>
    ensures { result ≡ called op caller ticket }
{
    if op == 3 {
        return Some(Deed::Asked(Call::Peek { caller, ticket }));
    }
    if op == 4 {
        return Some(Deed::Asked(Call::Collect { caller, ticket }));
    }
    if op == 5 {
        return Some(Deed::Asked(Call::Withdraw { caller, ticket }));
    }
    None
}

// A record with no desk behind it: 1 post, 2 turns, 7 show, or a call that names a ticket.
#[tactic(auto, unfolding(crate::specs::Records::plain_of))]
fn plain(op: u64, caller: u64, a: u64, b: u64, c: u64, d: u64) -> Option<Deed>
    ensures { result ≡ plain_of op caller a b c d }
{
    if op == 1 {
        return Some(Deed::Asked(Call::Post {
            caller,
            kind: a,
            p: arith::float_of(b),
            y: arith::float_of(c),
            number: d,
        }));
    }
    if op == 2 {
        if a <= 100000 {
            return Some(Deed::Turns(a));
        }
        return None;
    }
    if op == 7 {
        return Some(Deed::Shown);
    }
    by_ticket(op, caller, a)
}

// What the record at the front of the bytes that are left asks for: nothing where it is cut short, or
// where the rules know nothing of it.
#[tactic(auto, unfolding(crate::specs::Records::deed_of))]
pub fn read(rest: &[u8]) -> Option<Deed>
    ensures { result ≡ deed_of rest.now }
{
    if rest.len() < 48 {
        return None;
    }
    let op = words::word(rest, 0);
    if op == 6 {
        if rows_known(rest) {
            return Some(Deed::Given);
        }
        return None;
    }
    plain(
        op,
        words::word(rest, 1),
        words::word(rest, 2),
        words::word(rest, 3),
        words::word(rest, 4),
        words::word(rest, 5),
    )
}
