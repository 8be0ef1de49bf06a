// The listings, one a program (specs/Listings.antt).
ghost use Rattle.std.specs.Prelude.{◌≡◌};
ghost use Rattle.refusals.specs.Refusals.{number_in};
ghost use Rattle.text.specs.Lines.{Writes};
ghost use Rattle.text.specs.Room.{Written};
ghost use Rattle.listing.specs.Listings.{opened_of, listed_of, regions_text, answers_text};

use crate::Listing;
use crate::lines::{header, lines};
use crate::opening::opened;
use refusals::Refusal;
use row_lines::refused;
use sheet::{Rows, count, start};
use text::Line;

// The number of what refuses a sheet, 0 where it reads. A call of its own, so that an edit can be wrong of these
// answers and of no other.
fn refused_by(reading: Result<Rows, Refusal>) -> u64
    ensures { result ≡ number_in reading }
{
    refusals::number(reading)
}

// Writes the header and a line a row; of a refused sheet only its number.
fn listed(listing: Listing, sheet: &[u8], line: &mut Line<'_>)
    ensures { Writes line.old (listed_of listing sheet.now (opened_of sheet.now)) line.new }
{
    let reading = opened(sheet);
    match reading {
        Ok(_) => {
            header(listing, line);
            lines(listing, sheet, start(reading), count(reading), line);
        }
        Err(_) => refused(refused_by(reading), line),
    }
}

// The text of `regions`: row number, kind, refusal and region of each row.
pub fn regions(sheet: &[u8], out: &mut [u8]) -> usize
    ensures { Written out.old 0 (regions_text sheet.now) out.new result }
{
    let mut line = Line::new(out, 0);
    listed(Listing::Regions, sheet, &mut line);
    line.end()
}

// The text of `answers`: the same with mark and values.
pub fn answers(sheet: &[u8], out: &mut [u8]) -> usize
    ensures { Written out.old 0 (answers_text sheet.now) out.new result }
{
    let mut line = Line::new(out, 0);
    listed(Listing::Answers, sheet, &mut line);
    line.end()
}
