// What `replay` does with a run of desk calls, record by record: what each does to the desk, and the text
// that it writes. What is read is said in `records`, what it does in specs/Steps.antt, and what is written
// there, in specs/Lines.antt, and in `call_lines` and `desk_lines`.
#![tactic(auto)]

mod lines;
mod steps;

use desk::Desk;
pub use steps::play;

// What a record did: the desk afterwards, how many bytes of the run it took, and the place behind its
// text.
#[derive(Clone, Copy)]
pub struct Step {
    pub desk: Desk,
    pub taken: usize,
    pub end: usize,
}
