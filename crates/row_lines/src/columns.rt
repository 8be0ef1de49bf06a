// The columns that lines are made of (specs/Lines.antt).
ghost use Rattle.std.specs.Prelude.{◌≡◌};
ghost use Rattle.text.specs.Lines.{Writes};
ghost use Rattle.refusals.specs.Refusals.{number_of, number_in};
ghost use Rattle.reply.specs.Answers.{values_of};
ghost use Rattle.row_lines.specs.Lines.{asked_of, verdict_of, digit_of, mark_byte, value_columns};

use refusals::Refusal;
use reply::Answer;
use sheet::Point;
use text::Line;

// The query of a row.
pub(crate) fn asked(row: Point) -> Result<Answer, Refusal>
    ensures { result ≡ asked_of row }
{
    sums::query(
        row.kind,
        arith::float_of(row.first),
        arith::float_of(row.second),
    )
}

// The number of what refuses a query, 0 where nothing does. A call of its own, so that an edit can be wrong of
// these answers and of no other.
fn refused_by(a: Result<Answer, Refusal>) -> u64
    ensures { result ≡ number_in a }
{
    refusals::number(a)
}

// Writes a row's number, its kind, the refusal and the region, and the byte that ends them.
pub(crate) fn verdict(
    number: u64,
    kind: u64,
    a: Result<Answer, Refusal>,
    end: u8,
    line: &mut Line<'_>,
)
    ensures { Writes line.old (verdict_of number_of number kind a end) line.new }
{
    line.decimal(number, b' ');
    line.decimal(kind, b' ');
    line.decimal(refused_by(a), b' ');
    line.decimal(reply::region(a), end);
}

// A mark as a digit.
fn digit(mark: bool) -> u8
    ensures { result ≡ digit_of mark }
{
    if mark { b'1' } else { b'0' }
}

// The mark of an answer: 1 verified, 0 not, and `-` for a refusal, which has no region.
pub(crate) fn mark(a: Result<Answer, Refusal>) -> u8
    ensures { result ≡ mark_byte a }
{
    if reply::region(a) == 0 {
        b'-'
    } else {
        digit(reply::mark(a))
    }
}

// Writes the nine values of an answer, which end its line.
pub(crate) fn values(a: Result<Answer, Refusal>, line: &mut Line<'_>)
    ensures { Writes line.old (value_columns (values_of a)) line.new }
{
    let values = reply::values(a);
    for k in 0..8 {
        line.column(values[k], b' ');
    }
    let x = values[8];
    line.column(x, b'\n');
}
