// The check values of R7-97, the release as revised in 2007: region 5.
use crate::quantities::{Point, six};
use crate::tally::Tally;
use hot::Region5;
use properties::Basic;
use std::io;

// Table 42: region 5.
pub(crate) fn table42(rt: &impl Print, mut tally: Tally) -> io::Result<Tally> {
    tally = region5(
        rt,
        tally,
        0.5,
        1500.0,
        Point {
            first: 0.138455090e1,
            h: 0.521976855e4,
            u: 0.452749310e4,
            s: 0.965408875e1,
            cp: 0.261609445e1,
            w: 0.917068690e3,
        },
    )?;
    tally = region5(
        rt,
        tally,
        30.0,
        1500.0,
        Point {
            first: 0.230761299e-1,
            h: 0.516723514e4,
            u: 0.447495124e4,
            s: 0.772970133e1,
            cp: 0.272724317e1,
            w: 0.928548002e3,
        },
    )?;
    region5(
        rt,
        tally,
        30.0,
        2000.0,
        Point {
            first: 0.311385219e-1,
            h: 0.657122604e4,
            u: 0.563707038e4,
            s: 0.853640523e1,
            cp: 0.288569882e1,
            w: 0.106736948e4,
        },
    )
}

fn region5(rt: &impl Print, tally: Tally, p: f64, t: f64, printed: Point) -> io::Result<Tally> {
    let a = Region5::state(p, t);
    six(rt, tally, b"R7-97-42", b'v', a.v, a, p, t, printed)
}
