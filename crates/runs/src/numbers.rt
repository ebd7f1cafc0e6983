// The examples of refusals 8 to 13. After each refusal a call goes on as if there had been none.
use calls::Answer;
use plain::Message;
use records::Record;
use scripts::by_hand::{self, Way};
use scripts::script;
use std::io;

// No argument of a call can be larger.
const LARGEST: usize = usize::MAX;

// Station 3 of three, though the last station may ask by a quorum that it does not belong to; quorum 1 of 1; units
// above the stock, and none.
fn bad_numbers(rt: &impl Print, p2: Record) -> io::Result<()> {
    script::play(
        rt,
        p2,
        b"refusal 8: request(3,0,1) up(3,0) up(0,3) down(3,0) down(0,3) release(3) request(2,0,1)",
    )?;
    script::play(
        rt,
        by_hand::one_asked(1, 1),
        b"refusal 9: request(0,1,1) request(0,0,1)",
    )?;
    script::play(
        rt,
        by_hand::one_asked(3, 2),
        b"refusal 10: request(0,0,3) request(0,0,0) request(0,0,2)",
    )?;
    Ok(())
}

// Two requests running, of which the first goes on, and one while the station holds; a release of a station that is idle,
// and of one that collects; a lane is one station's with one arbiter, and a message is taken once.
fn bad_moments(rt: &impl Print, p2: Record) -> io::Result<()> {
    script::play(
        rt,
        p2,
        b"refusal 11: request(0,0,1) request(0,1,1) up(0,0) down(0,0) up(0,1) down(0,1) request(0,1,1)",
    )?;
    script::play(
        rt,
        p2,
        b"refusal 12: release(0) request(0,0,1) release(0) up(0,0) down(0,0)",
    )?;
    script::play(
        rt,
        p2,
        b"refusal 13: up(0,0) down(0,0) request(0,0,1) up(0,1) up(1,0) up(0,0) up(0,0) down(1,0) down(0,0)",
    )?;
    Ok(())
}

// Where two could be given, the lower one is.
fn in_order(rt: &impl Print, p2: Record) -> io::Result<()> {
    script::play(
        rt,
        p2,
        b"8 before 9, 9 before 10: request(3,3,2) request(0,3,2)",
    )?;
    let full = by_hand::with_lane(p2, Way::Up, 0, 0, by_hand::lane(4, Message::Release));
    script::play(rt, full, b"12 before 14: release(0)")?;
    let collecting = by_hand::collecting(0, 1, 0);
    let running = by_hand::with_phase(full, 0, collecting);
    script::play(
        rt,
        running,
        b"10 before 11, 11 before 14: request(0,0,2) request(0,0,1)",
    )?;
    Ok(())
}

fn large(rt: &impl Print, call: &str, a: Answer) -> io::Result<()> {
    print!(rt; "large number {call}")?;
    script::answered(rt, a)?;
    Ok(())
}

// Numbers that a byte cannot hold.
fn large_numbers(rt: &impl Print, p2: Record) -> io::Result<()> {
    large(rt, "request(256,0,1)", calls::request(p2, 256, 0, 1))?;
    large(rt, "request(0,256,1)", calls::request(p2, 0, 256, 1))?;
    large(rt, "request(0,0,257)", calls::request(p2, 0, 0, 257))?;
    large(rt, "up(0,18446744073709551615)", calls::up(p2, 0, LARGEST))
}

pub(crate) fn run(rt: &impl Print, p2: Record) -> io::Result<()> {
    bad_numbers(rt, p2)?;
    bad_moments(rt, p2)?;
    in_order(rt, p2)?;
    large_numbers(rt, p2)
}
