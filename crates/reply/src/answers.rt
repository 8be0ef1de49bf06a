// What an answer says in the paper's words: its region, mark and values (specs/Answers.antt). Its number
// is that of its refusal, which may be of any type: none is looked into.
ghost use Rattle.std.specs.Prelude.{◌≡◌};
ghost use Rattle.reply.specs.Answers.{region_of, mark_of, values_of};

use crate::Answer;
use equations::region_of;

// The region, 0 if refused, as the lines of the programs say it.
pub fn region<E: Copy>(a: Result<Answer, E>) -> u64
    ensures { result ≡ region_of a }
{
    match a {
        Ok(Answer::Single(s)) => region_of(s.equation),
        Ok(Answer::Wet(_)) => 4,
        Err(_) => 0,
    }
}

// Whether it is a state that is verified.
pub fn mark<E: Copy>(a: Result<Answer, E>) -> bool
    ensures { result ≡ mark_of a }
{
    match a {
        Ok(Answer::Single(s)) => s.verified,
        Ok(Answer::Wet(w)) => w.verified,
        Err(_) => false,
    }
}

// p, T, v, u, h, s, cp, w and x, as far as there are.
pub fn values<E: Copy>(a: Result<Answer, E>) -> [Option<f64>; 9]
    ensures { result ≡ values_of a }
{
    match a {
        Ok(Answer::Single(s)) => [
            Some(s.p),
            Some(s.t),
            Some(s.state.v),
            Some(s.state.u),
            Some(s.state.h),
            Some(s.state.s),
            Some(s.state.cp),
            Some(s.state.w),
            None,
        ],
        Ok(Answer::Wet(w)) => [
            Some(w.p),
            Some(w.t),
            Some(w.v),
            Some(w.u),
            Some(w.h),
            Some(w.s),
            None,
            None,
            Some(w.x),
        ],
        Err(_) => [None; 9],
    }
}
