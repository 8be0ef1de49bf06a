// The check values of 003, as it prints them: p(h,s) and the boundary 2ab.
use crate::decimals::print_byte;
use crate::tally::{TEN_DIGITS, Tally};
use backward::{p1_hs, p2_hs};
use std::io;
use subregions::h_2ab;

// All of them, in the paper's order.
pub(crate) fn tables(rt: &impl Print, mut tally: Tally) -> io::Result<Tally> {
    tally.unit = TEN_DIGITS;
    tally = table3(rt, tally)?;
    tally = table5(rt, tally)?;
    table9(rt, tally)
}

// Table 3: p(h,s) of region 1.
fn table3(rt: &impl Print, mut tally: Tally) -> io::Result<Tally> {
    let name: &[u8] = b"003-3 p1";
    tally = tally.line_at(rt, name, 0.001, 0.0, p1_hs(0.001, 0.0), 9.800980612e-4)?;
    tally = tally.line_at(rt, name, 90.0, 0.0, p1_hs(90.0, 0.0), 9.192954727e1)?;
    tally.line_at(rt, name, 1500.0, 3.4, p1_hs(1500.0, 3.4), 5.868294423e1)
}

// The point beside Table 5: the boundary 2ab.
fn table5(rt: &impl Print, tally: Tally) -> io::Result<Tally> {
    tally.line(rt, b"003-5 h2ab", 7.0, h_2ab(7.0), 3.376437884e3)
}

// Table 9: p(h,s) of region 2, in its parts a, b and c.
fn table9(rt: &impl Print, mut tally: Tally) -> io::Result<Tally> {
    tally = p2(rt, tally, b'a', 2800.0, 6.5, 1.371012767)?;
    tally = p2(rt, tally, b'a', 2800.0, 9.5, 1.879743844e-3)?;
    tally = p2(rt, tally, b'a', 4100.0, 9.5, 1.024788997e-1)?;
    tally = p2(rt, tally, b'b', 2800.0, 6.0, 4.793911442)?;
    tally = p2(rt, tally, b'b', 3600.0, 6.0, 8.395519209e1)?;
    tally = p2(rt, tally, b'b', 3600.0, 7.0, 7.527161441)?;
    tally = p2(rt, tally, b'c', 2800.0, 5.1, 9.439202060e1)?;
    tally = p2(rt, tally, b'c', 2800.0, 5.8, 8.414574124)?;
    p2(rt, tally, b'c', 3400.0, 5.8, 8.376903879e1)
}

fn p2(rt: &impl Print, tally: Tally, part: u8, h: f64, s: f64, printed: f64) -> io::Result<Tally> {
    streams::write_all(rt, b"003-9 p2")?;
    print_byte(rt, part)?;
    tally.at(rt, h, s, p2_hs(h, s), printed)
}
