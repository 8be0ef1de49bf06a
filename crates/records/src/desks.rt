// A desk in words (specs/Records.antt): behind the six words of its record the pointer, eight counts and
// 32 rows of eleven words each.
ghost use Rattle.std.specs.Prelude.{◌≡◌, ◌<◌};
ghost use Rattle.records.specs.Records.{made, row_start, rows_known, row_in, count_in, desk_in};

use ledger::{Desk, Row};

// The number of row i's first word, which says whether it is filled.
fn row_start(i: usize) -> usize
    requires { i < 32 }
    ensures { result ≡ row_start i }
{
    15 + 11 * i
}

// Whether the words of a desk are all there, and each row is filled or not, 1 or 0.
pub(crate) fn rows_known(rest: &[u8]) -> bool
    ensures { result ≡ rows_known rest.now }
{
    if rest.len() < 2936 {
        return false;
    }
    for i in 0..32 {
        if 1 < words::word(rest, row_start(i)) {
            return false;
        }
    }
    true
}

// Row i of the desk.
#[tactic(auto, unfolding(crate::specs::Records::row_in))]
fn row_in(rest: &[u8], i: usize) -> Row
    requires { i < 32 }
    ensures { result ≡ row_in rest.now i }
{
    let k = row_start(i);
    Row {
        filled: words::word(rest, k) == 1,
        caller: words::word(rest, k + 1),
        ticket: words::word(rest, k + 2),
        kind: words::word(rest, k + 3),
        region: words::word(rest, k + 4),
        p: arith::float_of(words::word(rest, k + 5)),
        y: arith::float_of(words::word(rest, k + 6)),
        number: words::word(rest, k + 7),
        halvings: words::word(rest, k + 8),
        lo: arith::float_of(words::word(rest, k + 9)),
        hi: arith::float_of(words::word(rest, k + 10)),
    }
}

// The rows of the desk.
fn rows_in(rest: &[u8]) -> [Row; 32]
    ensures { result ≡ made (row_in rest.now) 32 }
{
    let mut rows = [row_in(rest, 0); 32];
    for i in 0..32 {
        let r = row_in(rest, i);
        rows[i] = r;
    }
    rows
}

// How many tickets each caller was given.
fn counts_in(rest: &[u8]) -> [u64; 8]
    ensures { result ≡ made (count_in rest.now) 8 }
{
    let mut counts = [0u64; 8];
    for c in 0..8 {
        counts[c] = words::word(rest, 7 + c);
    }
    counts
}

// The desk behind a record.
#[tactic(auto, unfolding(crate::specs::Records::desk_in))]
pub fn desk_in(rest: &[u8]) -> Desk
    ensures { result ≡ desk_in rest.now }
{
    Desk {
        rows: rows_in(rest),
        counts: counts_in(rest),
        pointer: words::word(rest, 6),
    }
}
