// What the sheet programs write of a point sheet (specs/Listings.antt): the text goes into a slice
// that the caller lends, its room, and the place behind it is answered. Where the room ends first, the
// text is cut there.
#![tactic(auto)]

mod derivatives;
mod lines;
mod listings;
mod opening;

pub use derivatives::{quotients, quotients_head};
pub use listings::{answers, regions};
pub use opening::{INPUT, LONGEST, triples};

// The two listings that have a line a row. No closures for header and line: the texts of specs/Listings
// are said by a value of this type.
#[derive(Clone, Copy)]
enum Listing {
    Regions,
    Answers,
}
