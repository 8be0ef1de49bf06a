// For counting instructions (bench/count): works the operation that the first byte of standard input
// names once for each byte behind it, with other arguments each time, so that no part of it can be
// worked once for all turns, and says that it ended; `below zero` says that one of them was refused.
#![tactic(auto)]

use dense::Region3;
use desk::{Answer as Answered, Desk, Outcome};
use hot::Region5;
use liquid::Region1;
use properties::{Basic, State};
use refusals::Refusal;
use reply::Answer;
use saturation_line::{SaturationPressure, ps};
use std::io;
use steam::Region2;

// Every property of a state, so that none is left unworked.
fn sum_of(a: State) -> f64 {
    a.v + a.u + a.h + a.s + a.cp + a.w
}

// What a refusal counts in a sum: more than a thousand answers can make up for.
const REFUSED: f64 = -1000000000.0;

// Every property of an answer.
fn answered(a: Result<Answer, Refusal>) -> f64 {
    match a {
        Ok(Answer::Single(b)) => b.t + sum_of(b.state),
        Ok(Answer::Wet(b)) => b.t + b.v + b.u + b.h + b.s + b.x,
        Err(_) => REFUSED,
    }
}

fn derived(d: Result<f64, Refusal>) -> f64 {
    d.unwrap_or(REFUSED)
}

fn saturated(s: Option<SaturationPressure>) -> f64 {
    match s {
        Some(SaturationPressure::UpTo623(p) | SaturationPressure::Above623(p)) => p,
        None => REFUSED,
    }
}

// The numbers of three properties.
#[derive(Clone, Copy)]
struct Three {
    z: u64,
    x: u64,
    y: u64,
}

// h by T at constant p, or u by s at constant v: x decides which.
fn three_of(x: f64) -> Three {
    if x < 1.0 {
        Three { z: 5, x: 2, y: 1 }
    } else {
        Three { z: 4, x: 6, y: 3 }
    }
}

// The derivative by the three properties that x decides on.
fn some_quotient(x: f64, kind: u64, a: f64, b: f64) -> Result<f64, Refusal> {
    let n = three_of(x);
    sums::quotient(kind, a, b, n.z, n.x, n.y)
}

// The value of one query at x. Of a derivative, the three properties are part of what it is.
fn queried(operation: u8, x: f64) -> f64 {
    match operation {
        b'A' => answered(sums::from_pt(x, 300.0 + 10.0 * x)),
        b'B' => answered(sums::from_pt(x, 700.0 + 10.0 * x)),
        b'C' => answered(sums::from_ph(x, 100.0 + 10.0 * x)),
        b'D' => answered(sums::from_ph(0.5 * x, 3300.0 + 10.0 * x)),
        b'E' => answered(sums::from_ph(x, 2000.0 + 10.0 * x)),
        b'F' => answered(sums::from_hs(100.0 + 10.0 * x, 0.3 + 0.03 * x)),
        b'G' => derived(sums::quotient(1, x, 300.0 + 10.0 * x, 3, 2, 1)),
        b'H' => derived(sums::quotient(2, x, 100.0 + 10.0 * x, 3, 2, 1)),
        b'I' => derived(some_quotient(x, 1, x, 300.0 + 10.0 * x)),
        b'J' => derived(some_quotient(x, 2, x, 100.0 + 10.0 * x)),
        _ => x,
    }
}

// The value of one operation at x, which runs from 0.04 to 8 in 110 turns: each stays in its region,
// and none is below 0. No table of closures: the letters are those of bench/operations, and a match is
// as plain.
fn worked(operation: u8, x: f64) -> f64 {
    match operation {
        b'r' => elementary::root(x),
        b'f' => elementary::fourth_root(x),
        b'l' => elementary::log(30.0 * x),
        b'p' => arith::power(x, 17),
        b'1' => sum_of(Region1::state(x, 300.0 + 10.0 * x)),
        b'2' => sum_of(Region2::state(x, 700.0 + 10.0 * x)),
        b'h' => Region1::h(x, 300.0 + 10.0 * x),
        b'a' => saturated(ps(300.0 + 20.0 * x)),
        b't' => saturation_line::ts(x),
        b'b' => backward::t1_ph(x, 100.0 + 10.0 * x),
        b'c' => backward::t2_ps(0.1 * x, 7.5 + 0.1 * x),
        b'd' => backward::p1_hs(100.0 + 10.0 * x, 0.3 + 0.03 * x),
        _ => queried(operation, x),
    }
}

// The sum of n of them.
fn run(operation: u8, n: usize) -> f64 {
    let mut x = 0.0371;
    let mut sum = 0.0;
    for _ in 0..n {
        sum = sum + worked(operation, x);
        x = x * 1.05;
    }
    sum
}

// The value of an operation in region 3 or 5 at x.
fn beyond_worked(operation: u8, x: f64) -> f64 {
    match operation {
        b'3' => sum_of(Region3::state(400.0 + 10.0 * x, 650.0 + 5.0 * x)),
        b'g' => dense::density(30.0 + x, 640.0 + 5.0 * x),
        b'L' => answered(sums::from_pt(30.0 + x, 640.0 + 5.0 * x)),
        b'M' => derived(sums::quotient(1, 30.0 + x, 640.0 + 5.0 * x, 3, 2, 1)),
        b'N' => derived(some_quotient(x, 1, 30.0 + x, 640.0 + 5.0 * x)),
        b'5' => sum_of(Region5::state(30.0 + x, 1200.0 + 10.0 * x)),
        b'R' => answered(sums::from_pt(30.0 + x, 1200.0 + 10.0 * x)),
        _ => x,
    }
}

// The sum of n of these, in a loop of their own, so that the loop alone passes by no more letters than
// an operation in region 1 or 2.
fn run_beyond(operation: u8, n: usize) -> f64 {
    let mut x = 0.0371;
    let mut sum = 0.0;
    for _ in 0..n {
        sum = sum + beyond_worked(operation, x);
        x = x * 1.05;
    }
    sum
}

// So many jobs in region 1 for 40 halvings, one of each caller in turn.
fn desk_of(jobs: u64) -> Desk {
    let mut d = desk::new_desk();
    let mut y = 100.0;
    for k in 0..jobs {
        d = desk::post(d, k % 8, 2, 1.0, y, 40).desk;
        y = y + 10.0;
    }
    d
}

// A turn, a peek at the job of turn k, or a call that is refused: a withdraw of a ticket that is not
// open, a peek of an unknown caller.
fn called(operation: u8, d: Desk, k: usize) -> Outcome {
    let n = (k % 32) as u64;
    match operation {
        b'T' => desk::turn(d),
        b'P' => desk::peek(d, n % 8, n / 8),
        b'W' => desk::withdraw(d, n % 8, n + 4),
        _ => desk::peek(d, n + 8, n),
    }
}

// The upper end of the first job's bracket, so that no halving is left unworked.
fn shown(d: Desk) -> f64 {
    match desk::peek(d, 0, 0).answer {
        Ok(Answered::Shown { hi, .. }) => hi,
        _ => 0.0,
    }
}

// n of them on a full desk, one behind the other; U with the pointer out of range, where nothing else
// is tested.
fn run_desk(operation: u8, n: usize) -> f64 {
    let mut d = desk_of(32);
    if operation == b'U' {
        d.pointer = 32;
    }
    for k in 0..n {
        d = called(operation, d, k).desk;
    }
    shown(d)
}

// Five withdraws, one behind the other.
fn five_withdraws(first: Desk, k: usize) -> f64 {
    let mut d = first;
    for j in 0..5 {
        let n = ((k % 1000 + j) % 32) as u64;
        d = desk::withdraw(d, n % 8, n / 8).desk;
    }
    d.rows[31].hi
}

// n of them, five on each of as many copies of a full desk.
fn run_withdraws(n: usize) -> f64 {
    let d = desk_of(32);
    let mut sum = 0.0;
    for k in 0..n / 5 {
        sum = sum + five_withdraws(d, 5 * (k % 200));
    }
    sum
}

// Five posts, one behind the other, each by another caller.
fn five_posts(first: Desk, start: f64) -> f64 {
    let mut d = first;
    let mut x = start;
    for j in 0..5 {
        d = desk::post(d, 3 + j, 2, x, 100.0 + 10.0 * x, 10 + j).desk;
        x = x * 1.05;
    }
    d.rows[31].hi
}

// n of them, five on each of as many copies of a desk, which they fill.
fn run_posts(n: usize) -> f64 {
    let d = desk_of(27);
    let mut x = 0.0371;
    let mut sum = 0.0;
    for _ in 0..n / 5 {
        sum = sum + five_posts(d, x);
        x = x * 1.25;
    }
    sum
}

// A full desk of jobs that are ready.
fn ready_desk() -> Desk {
    let mut d = desk_of(32);
    for r in &mut d.rows {
        r.halvings = r.number;
    }
    d
}

// The state that a collect hands out.
fn handed_out(a: Result<Answered, Refusal>) -> f64 {
    match a {
        Ok(Answered::State { settled, .. }) => sum_of(settled.single.state),
        _ => REFUSED,
    }
}

// Five collects, one behind the other.
fn five_collects(first: Desk, k: usize) -> f64 {
    let mut d = first;
    let mut sum = 0.0;
    for j in 0..5 {
        let n = ((k % 1000 + j) % 32) as u64;
        let o = desk::collect(d, n % 8, n / 8);
        d = o.desk;
        sum = sum + handed_out(o.answer);
    }
    sum + d.rows[31].hi
}

// n of them, five on each of as many copies of that desk.
fn run_collects(n: usize) -> f64 {
    let d = ready_desk();
    let mut sum = 0.0;
    for k in 0..n / 5 {
        sum = sum + five_collects(d, 5 * (k % 200));
    }
    sum
}

// n times the operation that a letter names. By a call, so that a run without one has no need of its stack.
#[inline(never)]
fn measured(operation: u8, n: usize) -> f64 {
    match operation {
        b'T' | b'P' | b'W' | b'S' | b'U' => run_desk(operation, n),
        b'V' => run_withdraws(n),
        b'O' => run_posts(n),
        b'K' => run_collects(n),
        b'3' | b'g' | b'L' | b'M' | b'N' | b'5' | b'R' => run_beyond(operation, n),
        _ => run(operation, n),
    }
}

fn main(rt: HostRuntime) -> io::Result<()> {
    let mut buffer = [0u8; 1024];
    let got = streams::read_full(&rt, &mut buffer)?;
    if got == 0 {
        return streams::write_all(&rt, b"no operation\n");
    }
    let value = measured(buffer[0], got - 1);
    if value < 0.0 {
        streams::write_all(&rt, b"below zero\n")
    } else {
        streams::write_all(&rt, b"done\n")
    }
}
