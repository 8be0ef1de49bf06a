// What a query is answered, a state of one phase or a wet one, unless it is refused; and what that says in
// the paper's words, its region, mark and values (specs/Answers.antt).
#![tactic(auto)]

mod answers;

pub use answers::{mark, region, values};
use states::{Single, Wet};

#[derive(Clone, Copy)]
pub enum Answer {
    Single(Single),
    Wet(Wet),
}
