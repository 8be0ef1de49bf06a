// One line for each check value, and the count of those that agree.
use crate::decimals::{nearest_whole, power_of, print_argument, print_byte, print_number};
use std::io;

// What 0.DIGITS is DIGITS over: 002 prints nine digits, 003 ten.
pub(crate) const NINE_DIGITS: u64 = 1_000_000_000;

pub(crate) const TEN_DIGITS: u64 = 10_000_000_000;

// That of the paper whose tables are written, how many lines were written, and on how many of them the
// two numbers agree. The counts wrap at 2^64, which no list of check values comes near.
#[derive(Clone, Copy)]
pub(crate) struct Tally {
    pub unit: u64,
    pub lines: u64,
    pub agreed: u64,
}

impl Tally {
    // Writes the line of a quantity at x, and counts it.
    pub(crate) fn line(
        self,
        rt: &impl Print,
        name: &[u8],
        x: f64,
        computed: f64,
        printed: f64,
    ) -> io::Result<Self> {
        streams::write_all(rt, name)?;
        print_argument(rt, b'(', x)?;
        self.numbers(rt, computed, printed)
    }

    // The same of a quantity at x and y.
    pub(crate) fn line_at(
        self,
        rt: &impl Print,
        name: &[u8],
        x: f64,
        y: f64,
        computed: f64,
        printed: f64,
    ) -> io::Result<Self> {
        streams::write_all(rt, name)?;
        self.at(rt, x, y, computed, printed)
    }

    // Ends the line of a quantity at x and y, whose name is written, and counts it.
    pub(crate) fn at(
        self,
        rt: &impl Print,
        x: f64,
        y: f64,
        computed: f64,
        printed: f64,
    ) -> io::Result<Self> {
        print_argument(rt, b'(', x)?;
        print_argument(rt, b',', y)?;
        self.numbers(rt, computed, printed)
    }

    // Ends the line with both numbers, and counts it.
    fn numbers(self, rt: &impl Print, computed: f64, printed: f64) -> io::Result<Self> {
        let power = power_of(printed, std::num::nearest_u64_to_f64(self.unit));
        let digits = nearest_whole(printed * power.scale);
        let found = nearest_whole(computed * power.scale);
        print_byte(rt, b')')?;
        print_number(rt, digits, self.unit, power.steps)?;
        print_number(rt, found, self.unit, power.steps)?;
        print_byte(rt, b'\n')?;
        Ok(self.counted(found == digits))
    }

    fn counted(self, agrees: bool) -> Self {
        Self {
            unit: self.unit,
            lines: std::num::wrapping_add_u64(self.lines, 1),
            agreed: std::num::wrapping_add_u64(self.agreed, agrees as u64),
        }
    }

    // Writes the last line.
    pub(crate) fn print(self, rt: &impl Print) -> io::Result<()> {
        rt.print(self.agreed)?;
        streams::write_all(rt, b" of ")?;
        rt.print(self.lines)?;
        streams::write_all(rt, b" check values agree\n")
    }
}
