// How numbers are written: the argument of a quantity as a plain decimal, 623.15, and a check value as
// 002 prints it, 0.DIGITSEk for 0.DIGITS · 10^k.

use std::io;

// How a number is written as DIGITS/unit · 10^k: its DIGITS are itself times scale, and k is steps - 3.
#[derive(Clone, Copy)]
pub(crate) struct Power {
    pub steps: u64,
    pub scale: f64,
}

// The least k, from -3 up to 6, with which x is below 10^k. Every check value is below 10^4.
pub(crate) fn power_of(x: f64, unit: f64) -> Power {
    let mut scale = 1000.0 * unit;
    for steps in 0..9 {
        if x * scale < unit {
            return Power { steps, scale };
        }
        scale = scale / 10.0;
    }
    Power { steps: 9, scale }
}

// x rounded to a whole number; 0, which is no DIGITS of a paper, for a NaN and what no u64 holds.
pub(crate) fn nearest_whole(x: f64) -> u64 {
    let above = x + 0.5;
    if above > -1.0 {
        if above < 18446744073709551616.0 {
            return std::num::truncating_f64_to_u64(above);
        }
    }
    0
}

// Writes one byte.
pub(crate) fn print_byte(rt: &impl Print, c: u8) -> io::Result<()> {
    streams::write_all(rt, &[c])
}

// Writes a byte and x to seven decimals, without the zeros at the end.
pub(crate) fn print_argument(rt: &impl Print, before: u8, x: f64) -> io::Result<()> {
    print_byte(rt, before)?;
    let mut n = nearest_whole(x * 10000000.0);
    let mut unit = 10_000_000u64;
    while 10 <= unit && n % 10 == 0 {
        n = n / 10;
        unit = unit / 10;
    }
    print_over(rt, n, unit)
}

// Writes a space and the number n/unit · 10^(steps - 3).
pub(crate) fn print_number(rt: &impl Print, n: u64, unit: u64, steps: u64) -> io::Result<()> {
    print_byte(rt, b' ')?;
    print_over(rt, n, unit)?;
    print_byte(rt, b'E')?;
    if steps < 3 {
        print_byte(rt, b'-')?;
        rt.print(3 - steps)
    } else {
        rt.print(steps - 3)
    }
}

// Writes n over a power of ten.
fn print_over(rt: &impl Print, n: u64, unit: u64) -> io::Result<()> {
    if unit <= 1 {
        rt.print(n)
    } else {
        rt.print(n / unit)?;
        print_byte(rt, b'.')?;
        print_fraction(rt, std::num::wrapping_add_u64(unit, n % unit))
    }
}

// Writes the decimal digits of n without the first, which stands there to keep the zeros behind it.
fn print_fraction(rt: &impl Print, n: u64) -> io::Result<()> {
    if 10 <= n {
        print_fraction(rt, n / 10)?;
        print_byte(rt, b'0' + (n % 10) as u8)?;
    }
    Ok(())
}
