// Every check value that 002, 003 and, of region 5, R7-97 print for the equations in use, beside the value
// computed, to the digits printed. A line: the paper and table, the quantity at its arguments, the printed and
// the computed number. The last line says how many of them agree.
#![tactic(auto)]

mod decimals;
mod paper002;
mod paper003;
mod quantities;
mod revised;
mod tally;

use crate::tally::{NINE_DIGITS, Tally};
use std::io;

fn main(rt: HostRuntime) -> io::Result<()> {
    let tally = Tally {
        unit: NINE_DIGITS,
        lines: 0,
        agreed: 0,
    };
    paper003::tables(&rt, paper002::tables(&rt, tally)?)?.print(&rt)
}
