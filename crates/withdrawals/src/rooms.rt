// Refusal 14 of withdrawals, on records made by hand; after each refusal the calls that follow find everything where it was.
use plain::{Message, Phase};
use records::Record;
use scripts::by_hand::{self, Way};
use scripts::script;
use std::io;

// There is no place for WITHDRAW, and none for the RELEASE to the member below.
fn up_lanes(rt: &impl Print, p2: Record) -> io::Result<()> {
    let full = by_hand::lane(4, Message::Release);
    let collecting = by_hand::collecting(0, 1, 1);
    let r = by_hand::with_phase(p2, 0, collecting);
    script::play(
        rt,
        by_hand::with_lane(r, Way::Up, 0, 1, full),
        b"full lane, withdraw: withdraw(0) up(0,0) up(0,1) withdraw(0) up(0,0)",
    )?;
    script::play(
        rt,
        by_hand::with_lane(r, Way::Up, 0, 0, full),
        b"full lane, its release: withdraw(0) up(0,1) up(0,0) withdraw(0) up(0,1)",
    )?;
    Ok(())
}

// GONE finds no place behind two GRANTs.
fn down_lane(rt: &impl Print, p2: Record) -> io::Result<()> {
    let two = by_hand::with_lane(p2, Way::Down, 0, 0, by_hand::lane(2, Message::Grant));
    let r = by_hand::with_phase(two, 0, Phase::Withdrawing);
    script::play(
        rt,
        by_hand::with_lane(r, Way::Up, 0, 0, by_hand::lane(1, Message::Withdraw)),
        b"full lane, gone: up(0,0) down(0,0) up(0,0) down(0,0) down(0,0) down(0,0) request(0,0,1)",
    )?;
    Ok(())
}

// 8 before 20; and 20, not 14, at a station that does not collect, however full its lanes are.
fn in_order(rt: &impl Print, p2: Record) -> io::Result<()> {
    let full = by_hand::with_lane(p2, Way::Up, 0, 0, by_hand::lane(4, Message::Release));
    script::play(
        rt,
        full,
        b"8 before 20, 20 before 14: withdraw(3) withdraw(0)",
    )?;
    Ok(())
}

pub(crate) fn run(rt: &impl Print, p2: Record) -> io::Result<()> {
    up_lanes(rt, p2)?;
    down_lane(rt, p2)?;
    in_order(rt, p2)
}
