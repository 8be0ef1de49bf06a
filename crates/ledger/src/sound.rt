// Whether a desk is sound, in one pass over its rows: each is compared only with what is noted of its own
// caller.
ghost use Rattle.std.specs.Prelude.{◌≡◌, ◌<◌, true};
ghost use Rattle.ledger.specs.Rows.{nameable, row_right, counts_right, rows_right, sound};
ghost use Rattle.ledger.specs.Noted.{among};

use super::{Desk, Row};

// How many tickets a caller may be given.
pub const TICKETS: u64 = 1000000;

// Whether a post may name this number of halvings.
#[tactic(auto, unfolding(crate::specs::Rows::nameable))]
pub fn is_nameable(number: u64) -> bool
    ensures { result ≡ nameable number }
{
    if number < 10 {
        return false;
    }
    number <= 50
}

// A filled row by itself.
#[tactic(auto, unfolding(crate::specs::Rows::row_right, crate::specs::Rows::nameable))]
fn row_right(r: Row, counts: &[u64; 8]) -> bool
    ensures { result ≡ row_right counts.now r }
{
    let caller = r.caller as usize;
    if 7 < caller {
        return false;
    }
    if counts[caller] <= r.ticket {
        return false;
    }
    if r.region < 1 {
        return false;
    }
    if 2 < r.region {
        return false;
    }
    if r.kind < 2 {
        return false;
    }
    if 3 < r.kind {
        return false;
    }
    if !is_nameable(r.number) {
        return false;
    }
    r.halvings <= r.number
}

// Whether each count is one that can have been given.
fn counts_right(counts: &[u64; 8]) -> bool
    ensures { result ≡ counts_right counts.now }
{
    counts.iter().all(|count| *count <= TICKETS)
}

// Whether one of a caller's first three places holds t.
fn noted(tickets: &[u64; 32], caller: usize, t: u64) -> bool
    requires { caller < 8 }
    ensures { result ≡ among t tickets.now caller }
{
    (0..3).any(|k| tickets[caller + 8 * k] == t)
}

// The filled rows, by themselves and beside each other. The tickets of caller c that were passed are
// noted at c, c + 8, c + 16 and c + 24, and next[c] is the place for one more. A place that is free holds
// the number of tickets that may be given, which no ticket is: so a caller's first three places can be
// compared however many are taken; the fourth need not be, since no row may come behind it.
fn rows_right(d: &Desk) -> bool
    requires { counts_right d.now.counts ≡ true }
    ensures { result ≡ rows_right d.now }
{
    let mut tickets = [TICKETS; 32];
    let mut next = [0usize, 1, 2, 3, 4, 5, 6, 7];
    for r in &d.rows {
        if !r.filled {
            continue;
        }
        if !row_right(*r, &d.counts) {
            return false;
        }
        let c = r.caller as usize;
        let place = next[c];
        if 31 < place {
            return false;
        }
        if noted(&tickets, c, r.ticket) {
            return false;
        }
        tickets[place] = r.ticket;
        next[c] = place + 8;
    }
    true
}

// Whether a desk is sound.
#[tactic(auto, unfolding(crate::specs::Rows::sound))]
pub fn is_sound(d: &Desk) -> bool
    ensures { result ≡ sound d.now }
{
    if 31 < d.pointer {
        return false;
    }
    if !counts_right(&d.counts) {
        return false;
    }
    rows_right(d)
}
