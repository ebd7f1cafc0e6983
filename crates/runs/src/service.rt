// How an arbiter serves its line, with document 01's misreadings, and what RELEASE does.
use plain::Message;
use records::{Record, Slot};
use scripts::by_hand::{self, Way};
use scripts::script;
use std::io;

// Station 0 has two units of three. The one that station 2 asks for is free, but station 1, which asks for two, is first
// in line. Once station 0 has given its units back both are granted in one Up.
fn no_passing(rt: &impl Print, shared: Record) -> io::Result<()> {
    let r = script::play(
        rt,
        shared,
        b"two wait: request(0,0,2) up(0,0) down(0,0) request(1,0,2) up(1,0) request(2,0,1) up(2,0)",
    )?;
    script::play(
        rt,
        r,
        b"no passing: down(1,0) down(2,0) release(0) up(0,0) down(1,0) down(2,0)",
    )?;
    Ok(())
}

// Two grants of two units are four units; one of three is the whole stock.
fn units_counted(rt: &impl Print, shared: Record) -> io::Result<()> {
    script::play(
        rt,
        shared,
        b"units counted: request(0,0,2) up(0,0) request(1,0,2) up(1,0) down(0,0) down(1,0)",
    )?;
    script::play(
        rt,
        shared,
        b"whole stock: request(0,0,3) up(0,0) request(1,0,1) up(1,0) down(0,0) down(1,0) release(0) up(0,0) down(1,0)",
    )?;
    Ok(())
}

// Station 1 has two units granted and asks for two: its own count too, until its RELEASE is there.
fn own_grant(rt: &impl Print, shared: Record) -> io::Result<()> {
    let mut lane = by_hand::lane(2, Message::Release);
    let ask = Slot {
        message: by_hand::request(2),
    };
    lane.slots[0] = ask;
    let mut arbiter = by_hand::waiting(0, 0, 0);
    arbiter.granted[1] = by_hand::units(2);
    let r = by_hand::with_arbiter(shared, 0, arbiter);
    script::play(
        rt,
        by_hand::with_lane(r, Way::Up, 1, 0, lane),
        b"own grant: up(1,0) down(1,0) up(1,0) down(1,0)",
    )?;
    Ok(())
}

// By P5's last quorum, of stations 1, 2 and 3: each of them gets a RELEASE, and station 0 none.
fn all_members(rt: &impl Print) -> io::Result<()> {
    let p5 = by_hand::fresh(4, 2, &[7, 11, 13, 14]);
    let held = script::play(
        rt,
        p5,
        b"three members: request(0,3,2) up(0,1) down(0,1) up(0,2) down(0,2) up(0,3) down(0,3)",
    )?;
    script::play(
        rt,
        held,
        b"all members: release(0) up(0,0) up(0,1) up(0,2) up(0,3) up(0,1) release(0)",
    )?;
    Ok(())
}

pub(crate) fn run(rt: &impl Print, shared: Record) -> io::Result<()> {
    no_passing(rt, shared)?;
    units_counted(rt, shared)?;
    own_grant(rt, shared)?;
    all_members(rt)
}
