// The rows of a sheet (specs/Rows.antt).
ghost use Rattle.std.specs.Prelude.{◌≡◌};
ghost use Rattle.sheet.specs.Rows.{kind_known, kinds_known, row_of};

use words::u64_at;

// A row: the kind of query, 1 to 4 for (p,T), (p,h), (p,s), (h,s), and the bits of its two values.
// The kind is a u64, since any 24 bytes make a row (`row_of`): `read` refuses those that are none.
#[derive(Clone, Copy)]
pub struct Point {
    pub kind: u64,
    pub first: u64,
    pub second: u64,
}

// Whether a kind is one of the four.
#[tactic(auto, unfolding(crate::specs::Rows::kind_known))]
fn kind_known(kind: u64) -> bool
    ensures { result ≡ kind_known kind }
{
    1 <= kind && kind <= 4
}

// Whether each of the first n rows has a kind from 1 to 4. Bytes past the end count as 0, so a row
// there has none.
pub fn kinds_known(rows: &[u8], n: usize) -> bool
    ensures { result ≡ kinds_known n rows.now }
{
    for k in 0..n {
        if !kind_known(u64_at(rows, 24 * k)) {
            return false;
        }
    }
    true
}

// Row k, counted from 0, of the rows that start at a place of s. Where s does not hold that row, it
// is answered as zeros, which are no kind.
#[tactic(auto, unfolding(crate::specs::Rows::row_of))]
pub fn row(s: &[u8], start: usize, k: usize) -> Point
    ensures { result ≡ row_of s.now start k }
{
    if start <= s.len() {
        if k < (s.len() - start) / 24 {
            let at = start + 24 * k;
            return Point {
                kind: u64_at(s, at),
                first: u64_at(s, at + 8),
                second: u64_at(s, at + 16),
            };
        }
    }
    Point {
        kind: 0,
        first: 0,
        second: 0,
    }
}
