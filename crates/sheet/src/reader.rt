// Reading a sheet (specs/Read.antt).
ghost use Rattle.std.specs.Prelude.{◌≡◌, ◌<◌};
ghost use Rattle.sheet.specs.Read.{count_of, start_of, judged, trailer_of, read_of};

use crate::rows::kinds_known;
use refusals::Refusal;
use versions::{allowed, known};
use words::u32_at;

// What reading a sheet finds: how many rows there are and where the first starts, which is how long
// the note is.
#[derive(Clone, Copy)]
pub struct Rows {
    pub count: usize,
    pub start: usize,
}

// How many rows there are: none where the sheet is refused.
pub fn count<E: Copy>(reading: Result<Rows, E>) -> usize
    ensures { result ≡ count_of reading }
{
    reading.map_or(0, |rows| rows.count)
}

// Where the first row starts, which is how long the note is: 0 where the sheet is refused.
pub fn start<E: Copy>(reading: Result<Rows, E>) -> usize
    ensures { result ≡ start_of reading }
{
    reading.map_or(0, |rows| rows.start)
}

// What a trailer's four words say, with t bytes before it.
#[tactic(auto, unfolding(crate::specs::Read::judged))]
fn judge(t: usize, count: usize, back: usize, version: u64, last: u64) -> Result<Rows, Refusal>
    requires { count < 4294967296 }
    ensures { result ≡ judged t count back version last }
{
    if !known(version) {
        return Err(Refusal::Version);
    }
    if last != 0 {
        return Err(Refusal::Version);
    }
    if !allowed(version, count) {
        return Err(Refusal::RowCount);
    }
    if back != 24 * count {
        return Err(Refusal::Layout);
    }
    if back > t {
        return Err(Refusal::Layout);
    }
    let start = t - back;
    if start > 4096 {
        return Err(Refusal::Layout);
    }
    Ok(Rows { count, start })
}

// What a sheet's length and trailer say, with no look at its rows.
#[tactic(auto, unfolding(crate::specs::Read::trailer_of))]
fn trailer(s: &[u8]) -> Result<Rows, Refusal>
    ensures { result ≡ trailer_of s.now }
{
    if s.len() < 16 {
        return Err(Refusal::ShortSheet);
    }
    let t = s.len() - 16;
    judge(
        t,
        u32_at(s, t) as usize,
        u32_at(s, t + 4) as usize,
        u32_at(s, t + 8),
        u32_at(s, t + 12),
    )
}

// Reads a sheet, or refuses it: `ShortSheet` shorter than 16 bytes; `Version` not known or last word
// not 0; `RowCount` not allowed; `Layout` distance wrong or note too long; `RowKind` a kind outside
// 1 to 4.
pub fn read(s: &[u8]) -> Result<Rows, Refusal>
    ensures { result ≡ read_of s.now }
{
    let rows = trailer(s)?;
    if !kinds_known(&s[rows.start..rows.start + 24 * rows.count], rows.count) {
        return Err(Refusal::RowKind);
    }
    Ok(rows)
}
