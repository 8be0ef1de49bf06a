// A run of desk calls on standard input, record by record, from a new desk: a line for each record with
// what the desk answered, up to the end of the run or a bad record. For looking into a run that a model's
// author complains about.
#![tactic(auto)]

ghost use Rattle.std.specs.Prelude.{◌≤◌, ◌<◌, length, IfOk};
ghost use Rattle.text.specs.Room.{Whole};
ghost use Rattle.transcript.specs.Steps.{record_text, Next, Played, Ended};

use desk::Desk;
use std::io;
use transcript::Step;

// The text of no record is longer: the longest are those of a desk that is shown.
const ROOM: usize = 8192;

// Plays record k of a run, counted from 0, which comes next at a place and finds this desk. This room
// holds the text of every record, so that none is cut.
fn play(run: &[u8], k: u64, at: usize, d: Desk, room: &mut [u8; ROOM]) -> Step
    requires { (at ≤ length run.now) × (k < 18446744073709551615) × Next run.now k at d }
    ensures { Played run.now k at result × Whole room.new (record_text run.now k) result.end }
{
    transcript::play(&run[at..], k + 1, d, room)
}

// Plays the records of a run, prints the text of each, and answers how many there are.
fn replay(rt: &impl Print, run: &[u8]) -> io::Result<u64>
    requires { length run.now ≤ 65537 }
    ensures { IfOk result (Ended run.now) }
{
    let mut room = [0u8; ROOM];
    let mut desk = desk::new_desk();
    let mut at = 0;
    let mut k = 0;
    // A loop: where the run ends depends on what each record takes, and k counts the records for the answer.
    loop {
        let step = play(run, k, at, desk, &mut room);
        let end = step.end;
        streams::write_all(rt, &room[..end])?;
        let after = step.desk;
        desk = after;
        at = at + step.taken;
        k += 1;
        if run.len() <= at {
            return Ok(k);
        }
    }
}

// At most 65,536 bytes are a run. One more is read, so that of a longer one something is left behind the
// last whole record, which is then a record cut short: records are whole words, and 65,537 bytes are not.
fn main(rt: HostRuntime) -> io::Result<()> {
    let mut input = [0u8; 65537];
    let n = streams::read_full(&rt, &mut input)?;
    replay(&rt, &input[..n])?;
    Ok(())
}
