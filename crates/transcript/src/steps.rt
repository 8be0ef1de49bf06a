// What one record of a run does (specs/Steps.antt).
ghost use Rattle.std.specs.Prelude.{◌≡◌};
ghost use Rattle.text.specs.Room.{Written};
ghost use Rattle.records.specs.Records.{deed_of};
ghost use Rattle.transcript.specs.Steps.{outcome_of, Done, text_of};

use crate::Step;
use crate::lines::{number_if, opened, turned};
use call_lines::told;
use desk::{Desk, Outcome};
use desk_lines::shown;
use records::{Call, Deed, desk_in, read};
use text::Line;
use turns::turns;

// What the desk answers to a call, and the desk that it leaves.
fn asked(d: Desk, call: Call) -> Outcome
    ensures { result ≡ outcome_of d call }
{
    match call {
        Call::Post {
            caller,
            kind,
            p,
            y,
            number,
        } => desk::post(d, caller, kind, p, y, number),
        Call::Peek { caller, ticket } => desk::peek(d, caller, ticket),
        Call::Collect { caller, ticket } => desk::collect(d, caller, ticket),
        Call::Withdraw { caller, ticket } => desk::withdraw(d, caller, ticket),
    }
}

// The result of a record.
fn stepped(desk: Desk, taken: usize, end: usize) -> Step
    ensures { result ≡ record { desk = desk; taken = taken; end = end } }
{
    Step { desk, taken, end }
}

// Does what the record at the front of the bytes that are left asks for, on the desk d, and writes its
// text, with its number, into the room. A bad record takes all that is left: it ends the run.
pub fn play(rest: &[u8], number: u64, d: Desk, out: &mut [u8]) -> Step
    ensures { Done rest.now d result × Written out.old 0 (text_of number d (deed_of rest.now)) out.new result.end }
{
    match read(rest) {
        Some(Deed::Asked(call)) => {
            let o = asked(d, call);
            let end = told(number, call, o.answer, out);
            stepped(o.desk, 48, end)
        }
        Some(Deed::Turns(n)) => {
            let t = turns(d, n);
            let mut line = Line::new(out, 0);
            turned(number, number_if(t.refusal), t.halved, t.idle, &mut line);
            stepped(t.desk, 48, line.end())
        }
        Some(Deed::Given) => {
            let mut line = Line::new(out, 0);
            opened(number, b"desk\n", &mut line);
            stepped(desk_in(rest), 2936, line.end())
        }
        Some(Deed::Shown) => stepped(d, 48, shown(number, d, out)),
        None => {
            let mut line = Line::new(out, 0);
            opened(number, b"bad record\n", &mut line);
            stepped(d, rest.len(), line.end())
        }
    }
}
