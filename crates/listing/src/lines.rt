// The lines of the listings (specs/Listings.antt).
ghost use Rattle.std.specs.Prelude.{◌≡◌};
ghost use Rattle.text.specs.Lines.{Writes};
ghost use Rattle.text.specs.Texts.{joined};
ghost use Rattle.listing.specs.Listings.{header_of, row_line, line_at};

use crate::Listing;
use row_lines::{answer_line, region_line};
use sheet::Point;
use text::Line;

// Writes a listing's header.
pub(crate) fn header(listing: Listing, line: &mut Line<'_>)
    ensures { Writes line.old (header_of listing) line.new }
{
    match listing {
        Listing::Regions => line.bytes(b"row kind answer region\n"),
        Listing::Answers => line.bytes(b"row kind answer region mark p T v u h s cp w x\n"),
    }
}

// Writes a row's line.
fn row_line(listing: Listing, number: u64, row: Point, line: &mut Line<'_>)
    ensures { Writes line.old (row_line listing number row) line.new }
{
    match listing {
        Listing::Regions => region_line(number, row, line),
        Listing::Answers => answer_line(number, row, line),
    }
}

// Writes the lines of so many rows, the first of which starts at a place of the sheet, numbered from 1.
pub(crate) fn lines(listing: Listing, sheet: &[u8], start: usize, n: usize, line: &mut Line<'_>)
    ensures { Writes line.old (joined (line_at listing sheet.now start) n) line.new }
{
    for k in 0..n {
        let row = sheet::row(sheet, start, k);
        row_line(listing, k as u64 + 1, row, line);
    }
}
