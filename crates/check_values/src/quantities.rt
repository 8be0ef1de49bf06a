// The check values of a state: six quantities at one point of a table.
use crate::decimals::print_byte;
use crate::tally::Tally;
use properties::State;
use std::io;

// The six quantities of a state in a table's order. The first is v, or p where the density is given.
#[derive(Clone, Copy)]
pub(crate) struct Point {
    pub first: f64,
    pub h: f64,
    pub u: f64,
    pub s: f64,
    pub cp: f64,
    pub w: f64,
}

// Their lines at x and y, where the state is a. A letter stands for the name of each.
pub(crate) fn six(
    rt: &impl Print,
    mut tally: Tally,
    table: &[u8],
    name: u8,
    first: f64,
    a: State,
    x: f64,
    y: f64,
    printed: Point,
) -> io::Result<Tally> {
    tally = one(rt, tally, table, name, x, y, first, printed.first)?;
    tally = one(rt, tally, table, b'h', x, y, a.h, printed.h)?;
    tally = one(rt, tally, table, b'u', x, y, a.u, printed.u)?;
    tally = one(rt, tally, table, b's', x, y, a.s, printed.s)?;
    tally = one(rt, tally, table, b'c', x, y, a.cp, printed.cp)?;
    one(rt, tally, table, b'w', x, y, a.w, printed.w)
}

// The line of one of them; cp alone has a second letter.
fn one(
    rt: &impl Print,
    tally: Tally,
    table: &[u8],
    name: u8,
    x: f64,
    y: f64,
    computed: f64,
    printed: f64,
) -> io::Result<Tally> {
    streams::write_all(rt, table)?;
    print_byte(rt, b' ')?;
    print_byte(rt, name)?;
    if name == b'c' {
        print_byte(rt, b'p')?;
    }
    tally.at(rt, x, y, computed, printed)
}
