// The calls of the desk. Each tests the desk first, and changes it only behind its last refusal, so a
// refused call gives it back as it came.
ghost use Rattle.std.specs.Prelude.{◌≡◌, ◌<◌};
ghost use Rattle.runs.specs.Model.{new_desk, known, post_of, halved_row, turn_of, open_of, peek_of, collect_of, withdraw_of};

use ledger::{Desk, Row, TICKETS, Want, blank_row, count_open, is_nameable, is_sound, places_on};
use refusals::Refusal;
use runs::{Answer, Outcome};

// A desk with every row empty and every number in it 0.
#[tactic(auto, unfolding(runs::specs::Model::new_desk))]
pub fn new_desk() -> Desk
    ensures { result ≡ new_desk }
{
    Desk {
        rows: [blank_row(); 32],
        counts: [0; 8],
        pointer: 0,
    }
}

// Whether a caller, a kind and a number of halvings are ones that a post may name: any numbers may be posted.
#[tactic(auto, unfolding(runs::specs::Model::known))]
fn known(caller: u64, kind: u64, number: u64) -> bool
    ensures { result ≡ known caller kind number }
{
    if 7 < caller {
        return false;
    }
    if kind < 2 {
        return false;
    }
    if 3 < kind {
        return false;
    }
    is_nameable(number)
}

// A post on the desk: the ticket that it gets, its caller's own count, and the lowest free row holds its job.
#[tactic(auto, unfolding(runs::specs::Model::post_of, runs::specs::Model::judged_post, runs::specs::Model::admitted), using(crate::proofs::Ways::caller_known, ledger::proofs::Lists::count_fits))]
fn posted(
    d: &mut Desk,
    caller: u64,
    kind: u64,
    p: f64,
    y: f64,
    number: u64,
) -> Result<Answer, Refusal>
    ensures { record { answer = result; desk = d.new } ≡ post_of d.old caller kind p y number }
{
    if !is_sound(d) {
        return Err(Refusal::UnsoundDesk);
    }
    if !known(caller, kind, number) {
        return Err(Refusal::UnknownNumber);
    }
    let judged = settle::judge(kind, p, y)?;
    let ticket = d.counts[caller as usize];
    if TICKETS <= ticket {
        return Err(Refusal::TicketsSpent);
    }
    if 4 <= count_open(d, caller) {
        return Err(Refusal::FourOpen);
    }
    let i = places_on(d, Want::Vacant, 0).unwrap();
    d.rows[i] = Row {
        filled: true,
        caller,
        ticket,
        kind,
        region: settle::region(judged.phase),
        p,
        y,
        number,
        halvings: 0,
        lo: judged.lo,
        hi: judged.hi,
    };
    d.counts[caller as usize] = ticket + 1;
    Ok(Answer::Ticket(ticket))
}

// Posts the query of kind 2, h = y in kJ/kg at p in MPa, or of kind 3, s = y in kJ/(kg K) at p, for a
// number of halvings from 10 to 50: a ticket, the caller's own count. Refused with 15, 9, the number that
// judging the query gives, 13, 10.
pub fn post(mut d: Desk, caller: u64, kind: u64, p: f64, y: f64, number: u64) -> Outcome
    ensures { result ≡ post_of d caller kind p y number }
{
    let answer = posted(&mut d, caller, kind, p, y, number);
    Outcome { answer, desk: d }
}

// The row after one halving of its own bracket.
#[tactic(auto, unfolding(runs::specs::Model::halved_row))]
fn halved(r: Row) -> Row
    requires { r.halvings < r.number }
    ensures { result ≡ halved_row r }
{
    let b = settle::halve(r.kind, settle::phase(r.region), r.p, r.y, r.lo, r.hi);
    Row {
        halvings: r.halvings + 1,
        lo: b.lo,
        hi: b.hi,
        ..r
    }
}

// A turn on the desk.
#[tactic(auto, unfolding(runs::specs::Model::turn_of))]
fn turned(d: &mut Desk) -> Result<Answer, Refusal>
    ensures { record { answer = result; desk = d.new } ≡ turn_of d.old }
{
    if !is_sound(d) {
        return Err(Refusal::UnsoundDesk);
    }
    let pointer = d.pointer as usize;
    let Some(k) = places_on(d, Want::Unfinished, pointer) else {
        return Ok(Answer::Idle);
    };
    let i = (pointer + k) % 32;
    d.rows[i] = halved(d.rows[i]);
    d.pointer = ((i + 1) % 32) as u64;
    Ok(Answer::Halved)
}

// Gives one halving to the first unfinished row at or after the pointer, round the end, and moves the
// pointer just past it. Refused with 15.
pub fn turn(mut d: Desk) -> Outcome
    ensures { result ≡ turn_of d }
{
    let answer = turned(&mut d);
    Outcome { answer, desk: d }
}

// The row of a caller's ticket. Refused with 15, 9, 11.
#[tactic(auto, unfolding(runs::specs::Model::open_of))]
fn look_up(d: &Desk, caller: u64, ticket: u64) -> Result<usize, Refusal>
    ensures { result ≡ open_of d.now caller ticket }
{
    if !is_sound(d) {
        return Err(Refusal::UnsoundDesk);
    }
    if 7 < caller {
        return Err(Refusal::UnknownNumber);
    }
    places_on(d, Want::Held(caller, ticket), 0).ok_or(Refusal::NotOpen)
}

// What a peek shows of the desk.
#[tactic(auto, unfolding(runs::specs::Model::peek_of, runs::specs::Model::peek_at), using(crate::proofs::Ways::inside, ledger::proofs::Lists::row_fits, ledger::proofs::Lists::row_read))]
fn shown(d: &Desk, caller: u64, ticket: u64) -> Result<Answer, Refusal>
    ensures { record { answer = result; desk = d.now } ≡ peek_of d.now caller ticket }
{
    let i = look_up(d, caller, ticket)?;
    let r = d.rows[i];
    Ok(Answer::Shown {
        halvings: r.halvings,
        lo: r.lo,
        hi: r.hi,
    })
}

// Shows the halvings done on a ticket and the bracket in K that they left. Refused with 15, 9, 11.
pub fn peek(d: Desk, caller: u64, ticket: u64) -> Outcome
    ensures { result ≡ peek_of d caller ticket }
{
    let answer = shown(&d, caller, ticket);
    Outcome { answer, desk: d }
}

// A collect on the desk.
#[tactic(auto, unfolding(runs::specs::Model::collect_of, runs::specs::Model::collect_at), using(crate::proofs::Ways::inside, ledger::proofs::Lists::row_fits, ledger::proofs::Lists::row_read))]
fn collected(d: &mut Desk, caller: u64, ticket: u64) -> Result<Answer, Refusal>
    ensures { record { answer = result; desk = d.new } ≡ collect_of d.old caller ticket }
{
    let i = look_up(d, caller, ticket)?;
    let r = d.rows[i];
    if r.halvings < r.number {
        return Err(Refusal::NotReady);
    }
    d.rows[i] = blank_row();
    Ok(Answer::State {
        settled: settle::settled_at(r.kind, settle::phase(r.region), r.p, r.y, r.lo, r.hi),
        number: r.number,
        lo: r.lo,
        hi: r.hi,
    })
}

// Hands out the state of a ticket that is ready, the number of halvings that it was posted for and the
// bracket in K that they left, and frees its row. Refused with 15, 9, 11, 12.
pub fn collect(mut d: Desk, caller: u64, ticket: u64) -> Outcome
    ensures { result ≡ collect_of d caller ticket }
{
    let answer = collected(&mut d, caller, ticket);
    Outcome { answer, desk: d }
}

// A withdraw on the desk.
#[tactic(auto, unfolding(runs::specs::Model::withdraw_of, runs::specs::Model::withdraw_at), using(crate::proofs::Ways::inside, ledger::proofs::Lists::row_fits))]
fn withdrawn(d: &mut Desk, caller: u64, ticket: u64) -> Result<Answer, Refusal>
    ensures { record { answer = result; desk = d.new } ≡ withdraw_of d.old caller ticket }
{
    let i = look_up(d, caller, ticket)?;
    d.rows[i] = blank_row();
    Ok(Answer::Freed)
}

// Frees the row of a ticket, ready or not. Refused with 15, 9, 11.
pub fn withdraw(mut d: Desk, caller: u64, ticket: u64) -> Outcome
    ensures { result ≡ withdraw_of d caller ticket }
{
    let answer = withdrawn(&mut d, caller, ticket);
    Outcome { answer, desk: d }
}
