// The check values of 002, table by table: regions 1, 2 and 3, the saturation line, the boundaries B23 and
// 2bc, and T(p,h) and T(p,s); in the place of its region 5 stands that of R7-97. Tables A24 and A28 have lost
// the exponents of their powers of ten: in region 2 only 10^4 fits digits that begin with 1, and only 10^3 all
// others.
use crate::decimals::print_byte;
use crate::quantities::{Point, six};
use crate::revised::table42;
use crate::tally::Tally;
use backward::{t1_ph, t1_ps, t2_ph, t2_ps};
use boundaries::{p_2bc, p_b23, t_b23};
use dense::Region3;
use liquid::Region1;
use properties::Basic;
use saturation_line::{SaturationPressure, ps, ts};
use std::io;
use steam::Region2;

// All of them, in the paper's order.
pub(crate) fn tables(rt: &impl Print, mut tally: Tally) -> io::Result<Tally> {
    tally = a1(rt, tally)?;
    tally = a3(rt, tally)?;
    tally = a6(rt, tally)?;
    tally = a10(rt, tally)?;
    tally = a12(rt, tally)?;
    tally = table42(rt, tally)?;
    tally = a17(rt, tally)?;
    tally = a19(rt, tally)?;
    tally = a20(rt, tally)?;
    tally = a24(rt, tally)?;
    tally = a28(rt, tally)?;
    a29(rt, tally)
}

// Table A1, footnote: the boundary B23, both ways.
fn a1(rt: &impl Print, mut tally: Tally) -> io::Result<Tally> {
    tally = tally.line(rt, b"002-A1 pB23", 623.15, p_b23(623.15), 0.165291643e2)?;
    tally.line(
        rt,
        b"002-A1 TB23",
        16.5291643,
        t_b23(16.5291643),
        0.623150000e3,
    )
}

// Table A3: region 1.
fn a3(rt: &impl Print, mut tally: Tally) -> io::Result<Tally> {
    tally = region1(
        rt,
        tally,
        3.0,
        300.0,
        Point {
            first: 0.100215168e-2,
            h: 0.115331273e3,
            u: 0.112324818e3,
            s: 0.392294792,
            cp: 0.417301218e1,
            w: 0.150773921e4,
        },
    )?;
    tally = region1(
        rt,
        tally,
        80.0,
        300.0,
        Point {
            first: 0.971180894e-3,
            h: 0.184142828e3,
            u: 0.106448356e3,
            s: 0.368563852,
            cp: 0.401008987e1,
            w: 0.163469054e4,
        },
    )?;
    region1(
        rt,
        tally,
        3.0,
        500.0,
        Point {
            first: 0.120241800e-2,
            h: 0.975542239e3,
            u: 0.971934985e3,
            s: 0.258041912e1,
            cp: 0.465580682e1,
            w: 0.124071337e4,
        },
    )
}

fn region1(rt: &impl Print, tally: Tally, p: f64, t: f64, printed: Point) -> io::Result<Tally> {
    let a = Region1::state(p, t);
    six(rt, tally, b"002-A3", b'v', a.v, a, p, t, printed)
}

// Table A6: region 2.
fn a6(rt: &impl Print, mut tally: Tally) -> io::Result<Tally> {
    tally = region2(
        rt,
        tally,
        0.0035,
        300.0,
        Point {
            first: 0.394913866e2,
            h: 0.254991145e4,
            u: 0.241169160e4,
            s: 0.852238967e1,
            cp: 0.191300162e1,
            w: 0.427920172e3,
        },
    )?;
    tally = region2(
        rt,
        tally,
        0.0035,
        700.0,
        Point {
            first: 0.923015898e2,
            h: 0.333568375e4,
            u: 0.301262819e4,
            s: 0.101749996e2,
            cp: 0.208141274e1,
            w: 0.644289068e3,
        },
    )?;
    region2(
        rt,
        tally,
        30.0,
        700.0,
        Point {
            first: 0.542946619e-2,
            h: 0.263149474e4,
            u: 0.246861076e4,
            s: 0.517540298e1,
            cp: 0.103505092e2,
            w: 0.480386523e3,
        },
    )
}

fn region2(rt: &impl Print, tally: Tally, p: f64, t: f64, printed: Point) -> io::Result<Tally> {
    let a = Region2::state(p, t);
    six(rt, tally, b"002-A6", b'v', a.v, a, p, t, printed)
}

// Table A10: region 3.
fn a10(rt: &impl Print, mut tally: Tally) -> io::Result<Tally> {
    tally = region3(
        rt,
        tally,
        500.0,
        650.0,
        Point {
            first: 0.255837018e2,
            h: 0.186343019e4,
            u: 0.181226279e4,
            s: 0.405427273e1,
            cp: 0.138935717e2,
            w: 0.502005554e3,
        },
    )?;
    tally = region3(
        rt,
        tally,
        200.0,
        650.0,
        Point {
            first: 0.222930643e2,
            h: 0.237512401e4,
            u: 0.226365868e4,
            s: 0.485438792e1,
            cp: 0.446579342e2,
            w: 0.383444594e3,
        },
    )?;
    region3(
        rt,
        tally,
        500.0,
        750.0,
        Point {
            first: 0.783095639e2,
            h: 0.225868845e4,
            u: 0.210206932e4,
            s: 0.446971906e1,
            cp: 0.634165359e1,
            w: 0.760696041e3,
        },
    )
}

fn region3(
    rt: &impl Print,
    tally: Tally,
    density: f64,
    t: f64,
    printed: Point,
) -> io::Result<Tally> {
    let a = Region3::state(density, t);
    six(
        rt,
        tally,
        b"002-A10",
        b'p',
        Region3::pressure(density, t),
        a,
        density,
        t,
        printed,
    )
}

// Table A12: the saturation pressure.
fn a12(rt: &impl Print, mut tally: Tally) -> io::Result<Tally> {
    let name: &[u8] = b"002-A12 ps";
    tally = tally.line(rt, name, 300.0, lower_ps(300.0), 0.353658941e-2)?;
    tally = tally.line(rt, name, 500.0, lower_ps(500.0), 0.263889776e1)?;
    tally.line(rt, name, 600.0, lower_ps(600.0), 0.123443146e2)
}

// The saturation pressure up to 623.15 K, where all of Table A12 stands; elsewhere a NaN, which agrees with
// no printed number.
fn lower_ps(t: f64) -> f64 {
    match ps(t) {
        Some(SaturationPressure::UpTo623(p)) => p,
        _ => 0.0 / 0.0,
    }
}

// Table A17: T(p,h) of region 1.
fn a17(rt: &impl Print, mut tally: Tally) -> io::Result<Tally> {
    let name: &[u8] = b"002-A17 T1";
    tally = tally.line_at(rt, name, 3.0, 500.0, t1_ph(3.0, 500.0), 0.391798509e3)?;
    tally = tally.line_at(rt, name, 80.0, 500.0, t1_ph(80.0, 500.0), 0.378108626e3)?;
    tally.line_at(rt, name, 80.0, 1500.0, t1_ph(80.0, 1500.0), 0.611041229e3)
}

// Table A19: T(p,s) of region 1.
fn a19(rt: &impl Print, mut tally: Tally) -> io::Result<Tally> {
    let name: &[u8] = b"002-A19 T1";
    tally = tally.line_at(rt, name, 3.0, 0.5, t1_ps(3.0, 0.5), 0.307842258e3)?;
    tally = tally.line_at(rt, name, 80.0, 0.5, t1_ps(80.0, 0.5), 0.309979785e3)?;
    tally.line_at(rt, name, 80.0, 3.0, t1_ps(80.0, 3.0), 0.565899909e3)
}

// Table A20, footnote: the boundary 2bc.
fn a20(rt: &impl Print, tally: Tally) -> io::Result<Tally> {
    tally.line(
        rt,
        b"002-A20 p2bc",
        3516.004323,
        p_2bc(3516.004323),
        0.100000000e3,
    )
}

// Table A24: T(p,h) of region 2, in its parts a, b and c.
fn a24(rt: &impl Print, mut tally: Tally) -> io::Result<Tally> {
    tally = t2_of_ph(rt, tally, b'a', 0.001, 3000.0, 0.534433241e3)?;
    tally = t2_of_ph(rt, tally, b'a', 3.0, 3000.0, 0.575373370e3)?;
    tally = t2_of_ph(rt, tally, b'a', 3.0, 4000.0, 0.101077577e4)?;
    tally = t2_of_ph(rt, tally, b'b', 5.0, 3500.0, 0.801299102e3)?;
    tally = t2_of_ph(rt, tally, b'b', 5.0, 4000.0, 0.101531583e4)?;
    tally = t2_of_ph(rt, tally, b'b', 25.0, 3500.0, 0.875279054e3)?;
    tally = t2_of_ph(rt, tally, b'c', 40.0, 2700.0, 0.743056411e3)?;
    tally = t2_of_ph(rt, tally, b'c', 60.0, 2700.0, 0.791137067e3)?;
    t2_of_ph(rt, tally, b'c', 60.0, 3200.0, 0.882756860e3)
}

fn t2_of_ph(
    rt: &impl Print,
    tally: Tally,
    part: u8,
    p: f64,
    h: f64,
    printed: f64,
) -> io::Result<Tally> {
    streams::write_all(rt, b"002-A24 T2")?;
    print_byte(rt, part)?;
    tally.at(rt, p, h, t2_ph(p, h), printed)
}

// Table A28: T(p,s) of region 2, in its parts a, b and c.
fn a28(rt: &impl Print, mut tally: Tally) -> io::Result<Tally> {
    tally = t2_of_ps(rt, tally, b'a', 0.1, 7.5, 0.399517097e3)?;
    tally = t2_of_ps(rt, tally, b'a', 0.1, 8.0, 0.514127081e3)?;
    tally = t2_of_ps(rt, tally, b'a', 2.5, 8.0, 0.103984917e4)?;
    tally = t2_of_ps(rt, tally, b'b', 8.0, 6.0, 0.600484040e3)?;
    tally = t2_of_ps(rt, tally, b'b', 8.0, 7.5, 0.106495556e4)?;
    tally = t2_of_ps(rt, tally, b'b', 90.0, 6.0, 0.103801126e4)?;
    tally = t2_of_ps(rt, tally, b'c', 20.0, 5.75, 0.697992849e3)?;
    tally = t2_of_ps(rt, tally, b'c', 80.0, 5.25, 0.854011484e3)?;
    t2_of_ps(rt, tally, b'c', 80.0, 5.75, 0.949017998e3)
}

fn t2_of_ps(
    rt: &impl Print,
    tally: Tally,
    part: u8,
    p: f64,
    s: f64,
    printed: f64,
) -> io::Result<Tally> {
    streams::write_all(rt, b"002-A28 T2")?;
    print_byte(rt, part)?;
    tally.at(rt, p, s, t2_ps(p, s), printed)
}

// Table A29: the saturation temperature.
fn a29(rt: &impl Print, mut tally: Tally) -> io::Result<Tally> {
    let name: &[u8] = b"002-A29 Ts";
    tally = tally.line(rt, name, 0.1, ts(0.1), 0.372755919e3)?;
    tally = tally.line(rt, name, 1.0, ts(1.0), 0.453035632e3)?;
    tally.line(rt, name, 10.0, ts(10.0), 0.584149488e3)
}
