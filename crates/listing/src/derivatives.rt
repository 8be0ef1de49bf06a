// The text of `quotients` (specs/Listings.antt). A full note has 1,365 triples and a full sheet 1,000
// rows, so the text is written part by part: its head, and then the lines of one row after the other.
ghost use Rattle.std.specs.Prelude.{◌≡◌};
ghost use Rattle.text.specs.Lines.{Writes};
ghost use Rattle.text.specs.Room.{Written};
ghost use Rattle.row_lines.specs.Lines.{quotient_lines};
ghost use Rattle.listing.specs.Listings.{quotients_head, quotients_row};

use crate::opening::note;
use refusals::Numbered;
use row_lines::{quotient_line, refused};
use sheet::{Point, Rows};
use text::Line;

// Writes a row's line for each triple of the note in turn.
fn lines(number: u64, row: Point, note: &[u8], line: &mut Line<'_>)
    ensures { Writes line.old (quotient_lines number row note.now) line.new }
{
    for k in 0..note.len() / 3 {
        let i = 3 * k;
        quotient_line(
            number,
            row,
            u64::from(note[i]),
            u64::from(note[i + 1]),
            u64::from(note[i + 2]),
            line,
        );
    }
}

// The head of the text: the header, or of a refused sheet its number, whatever has one.
pub fn quotients_head<E: Numbered>(reading: Result<Rows, E>, out: &mut [u8]) -> usize
    ensures { Written out.old 0 (quotients_head E.numbered reading) out.new result }
{
    let mut line = Line::new(out, 0);
    match reading {
        Err(refusal) => refused(refusal.as_number(), &mut line),
        Ok(_) => line.bytes(b"row z x y answer value\n"),
    }
    line.end()
}

// The lines of row k, counted from 0, of a sheet that was read by `triples`; nothing where it has no
// such row.
pub fn quotients<E: Copy>(sheet: &[u8], reading: Result<Rows, E>, k: usize, out: &mut [u8]) -> usize
    ensures { Written out.old 0 (quotients_row sheet.now reading k) out.new result }
{
    match reading {
        Err(_) => 0,
        Ok(rows) => {
            if k < rows.count {
                let mut line = Line::new(out, 0);
                let row = sheet::row(sheet, rows.start, k);
                lines(k as u64 + 1, row, note(sheet, rows.start), &mut line);
                line.end()
            } else {
                0
            }
        }
    }
}
