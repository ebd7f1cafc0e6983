// GONE at stations in each phase, from records made by hand; WITHDRAW to an arbiter that is no member, and with many entries in line.
use plain::{Message, Phase};
use records::Record;
use scripts::by_hand::{self, Way};
use scripts::script;
use std::io;

// It is taken, and nothing else happens.
fn dropped(rt: &impl Print, p2: Record) -> io::Result<()> {
    let r = by_hand::with_lane(p2, Way::Down, 0, 0, by_hand::lane(1, Message::Gone));
    script::play(rt, r, b"gone to idle: down(0,0) down(0,0) request(0,0,1)")?;
    let collecting = by_hand::collecting(0, 1, 0);
    script::play(
        rt,
        by_hand::with_phase(r, 0, collecting),
        b"gone to collecting: down(0,0) request(0,0,1) withdraw(0)",
    )?;
    let holding = by_hand::holding(0, 1);
    script::play(
        rt,
        by_hand::with_phase(r, 0, holding),
        b"gone to holding: down(0,0) release(0)",
    )?;
    Ok(())
}

// Whichever arbiter it comes from, it makes a withdrawing station idle.
fn from_another(rt: &impl Print, p2: Record) -> io::Result<()> {
    let r = by_hand::with_lane(p2, Way::Down, 0, 2, by_hand::lane(1, Message::Gone));
    script::play(
        rt,
        by_hand::with_phase(r, 0, Phase::Withdrawing),
        b"gone of another: request(0,0,1) down(0,2) request(0,0,1)",
    )?;
    Ok(())
}

// Station 1 does not belong to quorum 1, and is approached all the same: RELEASE to 0, WITHDRAW to 1, nothing to 2.
fn no_member(rt: &impl Print, p2: Record) -> io::Result<()> {
    let collecting = by_hand::collecting(1, 1, 1);
    script::play(
        rt,
        by_hand::with_phase(p2, 0, collecting),
        b"no member: withdraw(0) up(0,2) up(0,0) up(0,0) up(0,1) down(0,1) request(0,1,1)",
    )?;
    Ok(())
}

// All twelve entries leave the line, and station 2 is served at once.
fn every_entry(rt: &impl Print, p2: Record) -> io::Result<()> {
    let r = by_hand::with_arbiter(p2, 0, by_hand::waiting(12, 1, 1));
    script::play(
        rt,
        by_hand::with_lane(r, Way::Up, 1, 0, by_hand::lane(1, Message::Withdraw)),
        b"every entry: up(1,0) down(1,0) down(1,0) request(2,0,1) up(2,0) down(2,0)",
    )?;
    Ok(())
}

pub(crate) fn run(rt: &impl Print, p2: Record) -> io::Result<()> {
    dropped(rt, p2)?;
    from_another(rt, p2)?;
    no_member(rt, p2)?;
    every_entry(rt, p2)
}
