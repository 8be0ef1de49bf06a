// The line of a call: its number and name, the refusal or 0, and what was handed out (specs/Lines.antt).
#![tactic(auto)]

ghost use Rattle.std.specs.Prelude.{◌≡◌, [], ◌∷◌, ◌++◌, replicate};
ghost use Rattle.text.specs.Room.{Written};
ghost use Rattle.text.specs.Lines.{Writes};
ghost use Rattle.text.specs.Texts.{decimal_of, value_of, blank, newline, number_column, float_column};
ghost use Rattle.call_lines.specs.Lines.{state_columns, width_of, line_of, name_of, given_of, answer_of, call_line};

use equations::region_of;
use records::Call;
use refusals::Numbered;
use runs::Answer;
use states::Single;
use text::Line;

// Writes a number and the words behind it.
fn numbered(n: u64, words: &[u8], line: &mut Line<'_>)
    ensures { Writes line.old (number_column n blank ++ words.now) line.new }
{
    line.decimal(n, b' ');
    line.bytes(words);
}

// Writes a line's number and the name of its call.
fn named(number: u64, call: Call, line: &mut Line<'_>)
    ensures { Writes line.old (number_column number blank ++ (name_of call ++ blank ∷ [])) line.new }
{
    match call {
        Call::Post { .. } => numbered(number, b"post ", line),
        Call::Peek { .. } => numbered(number, b"peek ", line),
        Call::Collect { .. } => numbered(number, b"collect ", line),
        Call::Withdraw { .. } => numbered(number, b"withdraw ", line),
    }
}

// Writes a refusal, and `-` for each thing that the call would have handed out.
fn refused(call: Call, n: u64, line: &mut Line<'_>)
    ensures { Writes line.old (decimal_of n ++ line_of (replicate (width_of call) (45 ∷ []))) line.new }
{
    match call {
        Call::Post { .. } => numbered(n, b"-\n", line),
        Call::Peek { .. } => numbered(n, b"- - -\n", line),
        Call::Collect { .. } => numbered(n, b"- - - - - - - - - - - - -\n", line),
        Call::Withdraw { .. } => line.decimal(n, b'\n'),
    }
}

// Writes that nothing is refused, and a ticket.
fn ticket(t: u64, line: &mut Line<'_>)
    ensures { Writes line.old ((48 ∷ blank ∷ []) ++ number_column t newline) line.new }
{
    line.bytes(b"0 ");
    line.decimal(t, b'\n');
}

// Writes a number of halvings and the bracket that they left, which end a line.
fn bracket(halvings: u64, lo: f64, hi: f64, line: &mut Line<'_>)
    ensures { Writes line.old (number_column halvings blank ++ float_column lo blank ++ float_column hi newline) line.new }
{
    line.decimal(halvings, b' ');
    line.column(Some(lo), b' ');
    line.column(Some(hi), b'\n');
}

// Writes that nothing is refused, the halvings done, and the bracket that they left.
fn peeked(halvings: u64, lo: f64, hi: f64, line: &mut Line<'_>)
    ensures { Writes line.old ((48 ∷ blank ∷ []) ++ number_column halvings blank ++ float_column lo blank ++ float_column hi newline) line.new }
{
    line.bytes(b"0 ");
    bracket(halvings, lo, hi, line);
}

// Writes that nothing is refused, region, mark and values of a state, the halvings posted for, and the
// bracket that they left.
fn collected(s: Single, number: u64, lo: f64, hi: f64, line: &mut Line<'_>)
    ensures { Writes line.old (48 ∷ line_of (state_columns s ++ decimal_of number ∷ value_of lo ∷ value_of hi ∷ [])) line.new }
{
    let q = s.state;
    let equation = s.equation;
    line.bytes(b"0 ");
    line.decimal(region_of(equation), b' ');
    line.decimal(u64::from(s.verified), b' ');
    line.column(Some(s.p), b' ');
    line.column(Some(s.t), b' ');
    line.column(Some(q.v), b' ');
    line.column(Some(q.u), b' ');
    line.column(Some(q.h), b' ');
    line.column(Some(q.s), b' ');
    line.column(Some(q.cp), b' ');
    line.column(Some(q.w), b' ');
    bracket(number, lo, hi, line);
}

// Writes that nothing is refused, and what a call handed out.
fn handed(answer: Answer, line: &mut Line<'_>)
    ensures { Writes line.old (given_of answer) line.new }
{
    match answer {
        Answer::Ticket(t) => ticket(t, line),
        Answer::Shown { halvings, lo, hi } => peeked(halvings, lo, hi, line),
        Answer::State {
            settled,
            number,
            lo,
            hi,
        } => collected(settled.single, number, lo, hi, line),
        Answer::Halved | Answer::Idle | Answer::Freed => line.bytes(b"0\n"),
    }
}

// Writes the refusal or 0, and what a call handed out.
fn answered<E: Numbered>(call: Call, answer: Result<Answer, E>, line: &mut Line<'_>)
    ensures { Writes line.old (answer_of E.numbered call answer) line.new }
{
    match answer {
        Ok(answer) => handed(answer, line),
        Err(refusal) => refused(call, refusal.as_number(), line),
    }
}

// Writes the line of a call: its number, its name, the refusal or 0, and what it handed out. What refuses it
// may be whatever has a number.
pub fn told<E: Numbered>(
    number: u64,
    call: Call,
    answer: Result<Answer, E>,
    out: &mut [u8],
) -> usize
    ensures { Written out.old 0 (call_line E.numbered number call answer) out.new result }
{
    let mut line = Line::new(out, 0);
    named(number, call, &mut line);
    answered(call, answer, &mut line);
    line.end()
}
