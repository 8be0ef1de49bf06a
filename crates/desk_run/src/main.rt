// A run of the desk through the points of the rules that are for running only: a fifth open post is
// refused with 10, a second collect of a ticket with 11, p = 0.0006 with any finite h with 2, a post for 9
// halvings or for 51 with 9. A line for each call: its name, its refusal number (0 where there is none)
// and what it handed out (a ticket, the halvings done, a region).
#![tactic(auto)]

use desk::{Answer, Desk};
use refusals::Refusal;
use std::io;

// One line: the call, the refusal number and the value.
fn line(rt: &impl Print, call: &[u8], number: u64, value: u64) -> io::Result<()> {
    streams::write_all(rt, call)?;
    streams::write_all(rt, b" ")?;
    rt.print(number)?;
    streams::write_all(rt, b" ")?;
    rt.print(value)?;
    streams::write_all(rt, b"\n")
}

// What a call answered.
fn say(rt: &impl Print, call: &[u8], answer: Result<Answer, Refusal>) -> io::Result<()> {
    match answer {
        Err(refusal) => line(rt, call, refusal.number(), 0),
        Ok(Answer::Ticket(t)) => line(rt, call, 0, t),
        Ok(Answer::Halved) => line(rt, call, 0, 1),
        Ok(Answer::Idle | Answer::Freed) => line(rt, call, 0, 0),
        Ok(Answer::Shown { halvings, .. }) => line(rt, call, 0, halvings),
        Ok(Answer::State { settled, .. }) => {
            line(rt, call, 0, equations::region_of(settled.single.equation))
        }
    }
}

// A post of kind 2, (p,h), or 3, (p,s), at p in MPa, for a number of halvings.
fn post_for(
    rt: &impl Print,
    d: Desk,
    caller: u64,
    kind: u64,
    p: f64,
    y: f64,
    number: u64,
) -> io::Result<Desk> {
    let o = desk::post(d, caller, kind, p, y, number);
    say(rt, b"post", o.answer)?;
    Ok(o.desk)
}

// The same for 40 halvings.
fn post_at(rt: &impl Print, d: Desk, caller: u64, kind: u64, p: f64, y: f64) -> io::Result<Desk> {
    post_for(rt, d, caller, kind, p, y, 40)
}

// The same at 1 MPa.
fn post(rt: &impl Print, d: Desk, caller: u64, kind: u64, y: f64) -> io::Result<Desk> {
    post_at(rt, d, caller, kind, 1.0, y)
}

fn peek(rt: &impl Print, d: Desk, caller: u64, ticket: u64) -> io::Result<()> {
    let o = desk::peek(d, caller, ticket);
    say(rt, b"peek", o.answer)
}

fn collect(rt: &impl Print, d: Desk, caller: u64, ticket: u64) -> io::Result<Desk> {
    let o = desk::collect(d, caller, ticket);
    say(rt, b"collect", o.answer)?;
    Ok(o.desk)
}

fn withdraw(rt: &impl Print, d: Desk, caller: u64, ticket: u64) -> io::Result<Desk> {
    let o = desk::withdraw(d, caller, ticket);
    say(rt, b"withdraw", o.answer)?;
    Ok(o.desk)
}

// So many turns that say nothing, and one that speaks.
fn turn_after(rt: &impl Print, d: Desk, silent: u64) -> io::Result<Desk> {
    let t = turns::turns(d, silent);
    let o = desk::turn(t.desk);
    say(rt, b"turn", o.answer)?;
    Ok(o.desk)
}

fn main(rt: HostRuntime) -> io::Result<()> {
    let d = desk::new_desk();
    let d = post(&rt, d, 0, 2, 500.0)?;
    let d = post(&rt, d, 0, 3, 1.5)?;
    let d = post(&rt, d, 0, 2, 500.0)?;
    let d = post(&rt, d, 0, 3, 1.5)?;
    let d = post(&rt, d, 0, 2, 500.0)?;
    let d = post(&rt, d, 1, 2, 500.0)?;
    let d = post(&rt, d, 8, 2, 500.0)?;
    let d = post(&rt, d, 1, 4, 1.5)?;
    let d = post_for(&rt, d, 1, 2, 1.0, 500.0, 9)?;
    let d = post_for(&rt, d, 1, 2, 1.0, 500.0, 51)?;
    let d = post_at(&rt, d, 1, 2, 0.0006, 500.0)?;
    let d = post_at(&rt, d, 1, 2, 0.0006, -7.0e300)?;
    let d = turn_after(&rt, d, 198)?;
    peek(&rt, d, 0, 0)?;
    peek(&rt, d, 1, 0)?;
    let d = collect(&rt, d, 1, 0)?;
    let d = turn_after(&rt, d, 0)?;
    let d = turn_after(&rt, d, 0)?;
    let d = collect(&rt, d, 1, 0)?;
    let d = collect(&rt, d, 1, 0)?;
    let d = withdraw(&rt, d, 0, 1)?;
    let d = withdraw(&rt, d, 0, 1)?;
    let d = post(&rt, d, 0, 2, 500.0)?;
    let mut d = d;
    d.pointer = 32;
    peek(&rt, d, 0, 0)
}
