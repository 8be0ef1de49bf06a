// A line each (specs/Lines.antt).
ghost use Rattle.std.specs.Prelude.{◌≡◌};
ghost use Rattle.text.specs.Lines.{Writes};
ghost use Rattle.refusals.specs.Refusals.{number_in};
ghost use Rattle.row_lines.specs.Lines.{refused_line, region_line, answer_line, quotient_line};

use crate::columns::{asked, mark, values, verdict};
use refusals::Refusal;
use sheet::Point;
use text::Line;

// Writes `refused N`, all that is said of a refused sheet.
pub fn refused(number: u64, line: &mut Line<'_>)
    ensures { Writes line.old (refused_line number) line.new }
{
    line.bytes(b"refused ");
    line.decimal(number, b'\n');
}

// Writes a row's number, kind, refusal and region.
pub fn region_line(number: u64, row: Point, line: &mut Line<'_>)
    ensures { Writes line.old (region_line number row) line.new }
{
    verdict(number, row.kind, asked(row), b'\n', line);
}

// Writes the same, the mark and the nine values.
pub fn answer_line(number: u64, row: Point, line: &mut Line<'_>)
    ensures { Writes line.old (answer_line number row) line.new }
{
    let a = asked(row);
    verdict(number, row.kind, a, b' ', line);
    line.bytes(&[mark(a), b' ']);
    values(a, line);
}

// The number of what refuses a derivative, 0 where nothing does.
fn refused_by(q: Result<f64, Refusal>) -> u64
    ensures { result ≡ number_in q }
{
    refusals::number(q)
}

// Writes a row's number, the properties z, x, y, the refusal and the value.
pub fn quotient_line(number: u64, row: Point, z: u64, x: u64, y: u64, line: &mut Line<'_>)
    ensures { Writes line.old (quotient_line number row z x y) line.new }
{
    let c = arith::float_of(row.first);
    let d = arith::float_of(row.second);
    let q = sums::quotient(row.kind, c, d, z, x, y);
    line.decimal(number, b' ');
    line.decimal(z, b' ');
    line.decimal(x, b' ');
    line.decimal(y, b' ');
    line.decimal(refused_by(q), b' ');
    line.column(slopes::value(q), b'\n');
}
