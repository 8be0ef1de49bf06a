// The lines of a desk: its pointer and counts, and a line for each row that is filled (specs/Lines.antt).
#![tactic(auto)]

ghost use Rattle.text.specs.Room.{Written};
ghost use Rattle.text.specs.Lines.{Writes};
ghost use Rattle.desk_lines.specs.Lines.{count_columns, desk_line, row_line, shown_lines};

use ledger::{Desk, Row};
use text::Line;

// Writes the eight counts of a desk, which end its line.
fn counts(d: Desk, line: &mut Line<'_>)
    ensures { Writes line.old (count_columns d) line.new }
{
    for c in 0..7 {
        line.decimal(d.counts[c], b' ');
    }
    line.decimal(d.counts[7], b'\n');
}

// Writes the pointer and the counts of a desk.
fn desk_line(number: u64, d: Desk, line: &mut Line<'_>)
    ensures { Writes line.old (desk_line number d) line.new }
{
    line.decimal(number, b' ');
    line.bytes(b"pointer ");
    line.decimal(d.pointer, b' ');
    line.bytes(b"counts ");
    counts(d, line);
}

// Writes row i; nothing where it is empty.
fn row_line(i: u64, r: Row, line: &mut Line<'_>)
    ensures { Writes line.old (row_line i r) line.new }
{
    if !r.filled {
        return;
    }
    line.bytes(b"row ");
    line.decimal(i, b' ');
    line.decimal(r.caller, b' ');
    line.decimal(r.ticket, b' ');
    line.decimal(r.kind, b' ');
    line.decimal(r.region, b' ');
    line.column(Some(r.p), b' ');
    line.column(Some(r.y), b' ');
    line.decimal(r.number, b' ');
    line.decimal(r.halvings, b' ');
    line.column(Some(r.lo), b' ');
    line.column(Some(r.hi), b'\n');
}

// Writes the desk: its pointer and counts, and a line for each row that is filled.
pub fn shown(number: u64, d: Desk, out: &mut [u8]) -> usize
    ensures { Written out.old 0 (shown_lines number d) out.new result }
{
    let mut line = Line::new(out, 0);
    desk_line(number, d, &mut line);
    for (i, r) in d.rows.iter().enumerate() {
        row_line(i as u64, *r, &mut line);
    }
    line.end()
}
