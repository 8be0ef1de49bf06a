// What a plant model is, whatever it models: numbers, what it asks next, and what it becomes when it is
// told the state that it asked for, of one phase, or why that is refused, which it also writes down in a
// line for people.
mod asking;
mod lines;

pub(crate) use asking::{Asks, ask};
pub(crate) use lines::{KW_IN_MW, Output, bits, megawatts, told};
