// What arith and elementary make of the numbers on standard input, bit for bit, for comparing with another
// program.
// A record is 16 bytes, two little-endian words: the bits of x, and k, whose low byte is an exponent
// as a signed byte. At most 65,536 bytes are read; a record cut short is passed over. A line a record:
// x, k, x^k, root, fourth root and logarithm of x, and 1 where x is finite.
#![tactic(auto)]

use std::io;

// The low byte as a signed one.
fn signed(b: u64) -> i16 {
    ((b % 256) as u8).cast_signed() as i16
}

// An exponent, whose sign is a write of its own. By a call, so that what a print needs of the stack is not kept by
// all that calls it.
#[inline(never)]
fn print_exponent(rt: &impl Print, k: i16) -> io::Result<()> {
    if k < 0 {
        streams::write_all(rt, b"-")?;
    }
    rt.print(u64::from(k.unsigned_abs()))
}

// A number by its 16 hexadecimal digits, or nan: a NaN has no digits of its own.
fn print_float(rt: &impl Print, x: f64) -> io::Result<()> {
    if x == x {
        let bits = f64::to_bits(x);
        print!(rt; "{bits:016x}")
    } else {
        streams::write_all(rt, b"nan")
    }
}

fn print_line(rt: &impl Print, x: f64, k: u64) -> io::Result<()> {
    print_float(rt, x)?;
    streams::write_all(rt, b" ")?;
    print_exponent(rt, signed(k))?;
    streams::write_all(rt, b" ")?;
    print_float(rt, arith::power(x, signed(k)))?;
    streams::write_all(rt, b" ")?;
    print_float(rt, elementary::root(x))?;
    streams::write_all(rt, b" ")?;
    print_float(rt, elementary::fourth_root(x))?;
    streams::write_all(rt, b" ")?;
    print_float(rt, elementary::log(x))?;
    if arith::is_finite(x) {
        streams::write_all(rt, b" 1\n")
    } else {
        streams::write_all(rt, b" 0\n")
    }
}

fn print_lines(rt: &impl Print, s: &[u8]) -> io::Result<()> {
    for record in s.chunks_exact(16) {
        let x = arith::float_of(words::word(record, 0));
        print_line(rt, x, words::word(record, 1))?;
    }
    Ok(())
}

fn main(rt: HostRuntime) -> io::Result<()> {
    let mut buffer = [0u8; 65536];
    let n = streams::read_full(&rt, &mut buffer)?;
    streams::write_all(&rt, b"x k power root fourth log finite\n")?;
    print_lines(&rt, &buffer[..n])
}
