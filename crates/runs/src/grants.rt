// What a station makes of a GRANT that it does not wait for, on records made by hand from P2.
use plain::Message;
use records::Record;
use scripts::by_hand::{self, Way};
use scripts::script;
use std::io;

// To a station that is idle, and to one that holds.
fn not_collecting(rt: &impl Print, p2: Record) -> io::Result<()> {
    let r = by_hand::with_lane(p2, Way::Down, 0, 0, by_hand::lane(1, Message::Grant));
    script::play(rt, r, b"grant to idle: down(0,0) down(0,0) request(0,0,1)")?;
    let holding = by_hand::holding(0, 1);
    script::play(
        rt,
        by_hand::with_phase(r, 0, holding),
        b"grant to holding: down(0,0) down(0,0) release(0)",
    )?;
    Ok(())
}

// From member 1, while the station collects from member 0.
fn other_member(rt: &impl Print, p2: Record) -> io::Result<()> {
    let grant = by_hand::lane(1, Message::Grant);
    let collecting = by_hand::collecting(0, 1, 0);
    let mut r = by_hand::with_phase(p2, 0, collecting);
    r = by_hand::with_lane(r, Way::Down, 0, 0, grant);
    r = by_hand::with_lane(r, Way::Down, 0, 1, grant);
    script::play(
        rt,
        r,
        b"grant of another: down(0,1) down(0,1) down(0,0) up(0,1) down(0,1)",
    )?;
    Ok(())
}

// The station approached is not in the quorum, which is that of 0 and 2: the lowest member above it is asked next.
fn no_member(rt: &impl Print, p2: Record) -> io::Result<()> {
    let collecting = by_hand::collecting(1, 1, 1);
    let r = by_hand::with_phase(p2, 0, collecting);
    script::play(
        rt,
        by_hand::with_lane(r, Way::Down, 0, 1, by_hand::lane(1, Message::Grant)),
        b"grant of no member: down(0,1) up(0,0) up(0,2) down(0,2)",
    )?;
    Ok(())
}

pub(crate) fn run(rt: &impl Print, p2: Record) -> io::Result<()> {
    not_collecting(rt, p2)?;
    other_member(rt, p2)?;
    no_member(rt, p2)
}
