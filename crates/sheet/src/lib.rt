// Point sheets, by which query points travel as bytes: a note of up to 4,096 bytes, rows of 24 bytes
// and a trailer of 16. A row is its kind and the bits of its two values, each a u64; the trailer is
// the number of rows, the distance back from its own start to the first row, the version, and zero,
// each a u32. All are little-endian. Value bits are not judged here.
#![tactic(auto)]

mod reader;
mod rows;

pub use reader::{Rows, count, read, start};
pub use rows::{Point, kinds_known, row};
