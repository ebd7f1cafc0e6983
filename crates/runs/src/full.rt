// Refusal 14, on records made by hand: a lane or a line would pass its limit. After each refusal the calls that
// follow find everything where it was.
use plain::Message;
use records::Record;
use scripts::by_hand::{self, Way};
use scripts::script;
use std::io;

// Once there is a place for the REQUEST it is the last of four. RELEASE to the first member is not sent where that to the
// second has no place. A GRANT stays where the REQUEST that it leads to has no place.
fn up_lane(rt: &impl Print, p2: Record) -> io::Result<()> {
    let full = by_hand::lane(4, Message::Release);
    script::play(
        rt,
        by_hand::with_lane(p2, Way::Up, 0, 0, full),
        b"full lane, request: request(0,0,1) up(0,0) request(0,0,1) up(0,0) up(0,0) up(0,0) down(0,0) up(0,0) down(0,0)",
    )?;
    let second = by_hand::with_lane(p2, Way::Up, 0, 1, full);
    let holding = by_hand::holding(0, 1);
    script::play(
        rt,
        by_hand::with_phase(second, 0, holding),
        b"full lane, release: release(0) up(0,0) up(0,1) release(0) up(0,0)",
    )?;
    let collecting = by_hand::collecting(0, 1, 0);
    let granted = by_hand::with_lane(second, Way::Down, 0, 0, by_hand::lane(1, Message::Grant));
    script::play(
        rt,
        by_hand::with_phase(granted, 0, collecting),
        b"full lane, down: down(0,0) up(0,1) down(0,0) down(0,0)",
    )?;
    Ok(())
}

// Twelve wait, and the first of them fits: a REQUEST has no place all the same. A RELEASE needs none.
fn line(rt: &impl Print, p2: Record) -> io::Result<()> {
    let mut r = by_hand::with_arbiter(p2, 0, by_hand::waiting(12, 1, 1));
    r = by_hand::with_lane(r, Way::Up, 0, 0, by_hand::lane(1, by_hand::request(1)));
    r = by_hand::with_lane(r, Way::Up, 2, 0, by_hand::lane(1, Message::Release));
    script::play(
        rt,
        r,
        b"full line: up(0,0) down(1,0) up(2,0) down(1,0) up(0,0) down(1,0)",
    )?;
    Ok(())
}

// A third GRANT for the same station.
fn down_lane(rt: &impl Print, p2: Record) -> io::Result<()> {
    let two = by_hand::with_lane(p2, Way::Down, 1, 0, by_hand::lane(2, Message::Grant));
    script::play(
        rt,
        by_hand::with_lane(two, Way::Up, 1, 0, by_hand::lane(1, by_hand::request(1))),
        b"full lane, grant: up(1,0) down(1,0) up(1,0) down(1,0) down(1,0) down(1,0)",
    )?;
    Ok(())
}

// Station 1 waits several times for one unit of three. Its own unit counts at each turn, and is replaced, so all fit, but
// only two GRANTs have a place. One unit is granted after them, which leaves two for station 2.
fn at_once(rt: &impl Print, shared: Record) -> io::Result<()> {
    let r = by_hand::with_lane(shared, Way::Up, 0, 0, by_hand::lane(1, Message::Release));
    script::play(
        rt,
        by_hand::with_arbiter(r, 0, by_hand::waiting(3, 1, 1)),
        b"three grants at once: up(0,0) down(1,0)",
    )?;
    script::play(
        rt,
        by_hand::with_arbiter(r, 0, by_hand::waiting(2, 1, 1)),
        b"two grants at once: up(0,0) down(1,0) down(1,0) down(1,0) request(2,0,2) up(2,0) down(2,0)",
    )?;
    Ok(())
}

pub(crate) fn run(rt: &impl Print, p2: Record, shared: Record) -> io::Result<()> {
    up_lane(rt, p2)?;
    line(rt, p2)?;
    down_lane(rt, p2)?;
    at_once(rt, shared)
}
