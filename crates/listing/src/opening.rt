// Reading what comes in (specs/Listings.antt).
ghost use Rattle.std.specs.Prelude.{◌≡◌, take};
ghost use Rattle.listing.specs.Listings.{opened_of, triples_of};

use refusals::Refusal;
use sheet::Rows;

// The longest sheet: a note of 4,096 bytes, 1,000 rows of 24 and the trailer of 16.
pub const LONGEST: usize = 28112;

// How much a program reads: a byte more, so that a longer input is seen to be longer.
pub const INPUT: usize = LONGEST + 1;

// Reads a sheet; what is longer than any is refused by `Layout`.
#[tactic(auto, unfolding(crate::specs::Listings::opened_of))]
pub(crate) fn opened(sheet: &[u8]) -> Result<Rows, Refusal>
    ensures { result ≡ opened_of sheet.now }
{
    if sheet.len() > LONGEST {
        return Err(Refusal::Layout);
    }
    sheet::read(sheet)
}

// Reads a sheet whose note is triples of bytes; a note of another length is refused by `Layout`.
#[tactic(auto, unfolding(crate::specs::Listings::in_triples))]
pub fn triples(sheet: &[u8]) -> Result<Rows, Refusal>
    ensures { result ≡ triples_of sheet.now }
{
    let rows = opened(sheet)?;
    if rows.start % 3 != 0 {
        return Err(Refusal::Layout);
    }
    Ok(rows)
}

// The note: what stands before the rows.
pub(crate) fn note(sheet: &[u8], start: usize) -> &[u8]
    ensures { result.now ≡ take start sheet.now }
{
    if start < sheet.len() {
        &sheet[..start]
    } else {
        sheet
    }
}
