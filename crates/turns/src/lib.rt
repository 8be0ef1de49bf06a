// Turns of the desk one after the other, to whomever they fall (specs/Turns.antt).
#![tactic(auto)]

ghost use Rattle.std.specs.Prelude.{◌≡◌, ◌<◌};
ghost use Rattle.turns.specs.Turns.{after_turn, turns_of};

use desk::{Answer, Desk, Outcome};
use refusals::Refusal;

// What turns one after the other gave: why one was refused, how many halved and how many had nothing to
// halve, and the desk afterwards.
#[derive(Clone, Copy)]
pub struct Turned {
    pub refusal: Option<Refusal>,
    pub halved: u64,
    pub idle: u64,
    pub desk: Desk,
}

// Counts one turn more.
#[tactic(auto, unfolding(crate::specs::Turns::after_turn))]
fn count(t: Turned, turn: Outcome) -> Turned
    requires { (t.halved < 18446744073709551615) × (t.idle < 18446744073709551615) }
    ensures { result ≡ after_turn t turn.answer turn.desk }
{
    let mut s = Turned {
        desk: turn.desk,
        ..t
    };
    match turn.answer {
        Ok(answer) => match answer {
            Answer::Halved => s.halved += 1,
            Answer::Idle => s.idle += 1,
            _ => {}
        },
        Err(refusal) => s.refusal = Some(refusal),
    }
    s
}

// So many turns.
pub fn turns(d: Desk, n: u64) -> Turned
    ensures { result ≡ turns_of n d }
{
    let mut t = Turned {
        refusal: None,
        halved: 0,
        idle: 0,
        desk: d,
    };
    for _ in 0..n {
        t = count(t, desk::turn(t.desk));
    }
    t
}
