// The lines that the sheet programs print of a row of a sheet, or of a sheet that is refused
// (specs/Lines.antt): each is written behind what stands in the caller's `text::Line`. Where its room
// ends first, the text is cut there.
#![tactic(auto)]

mod columns;
mod lines;

pub use lines::{answer_line, quotient_line, refused, region_line};
