// Refusal 19: the empty record, and records made by hand that are just out of range, beside those that are just within.
use plain::Message;
use records::Record;
use scripts::by_hand::{self, Way};
use scripts::{changed, script};
use std::io;

// What opening hands back on a refusal.
fn empty_record(rt: &impl Print, empty: Record) -> io::Result<()> {
    script::play(
        rt,
        empty,
        b"refusal 19: request(0,0,1) up(0,0) down(0,0) release(0)",
    )?;
    Ok(())
}

// No stock, and a station or arbiter that there is not.
fn before_8(rt: &impl Print, p2: Record) -> io::Result<()> {
    let mut r = p2;
    r.stock = by_hand::units(0);
    script::play(
        rt,
        r,
        b"19 before 8: request(3,0,1) up(3,0) down(0,3) release(3)",
    )?;
    Ok(())
}

fn lanes(rt: &impl Print, p2: Record) -> io::Result<()> {
    changed::lane(rt, p2, Way::Up, 4, Message::Release)?;
    changed::lane(rt, p2, Way::Up, 5, Message::Release)?;
    changed::lane(rt, p2, Way::Up, 1, Message::Grant)?;
    changed::lane(rt, p2, Way::Up, 1, by_hand::request(0))?;
    changed::lane(rt, p2, Way::Up, 1, by_hand::request(2))?;
    changed::lane(rt, p2, Way::Down, 2, Message::Grant)?;
    changed::lane(rt, p2, Way::Down, 3, Message::Grant)?;
    changed::lane(rt, p2, Way::Down, 1, by_hand::request(1))?;
    changed::lane(rt, p2, Way::Down, 1, Message::Release)
}

fn arbiters(rt: &impl Print, p2: Record) -> io::Result<()> {
    changed::arbiter(rt, p2, 1, 12, 2, 1)?;
    changed::arbiter(rt, p2, 2, 12, 2, 1)?;
    changed::arbiter(rt, p2, 1, 13, 2, 1)?;
    changed::arbiter(rt, p2, 1, 12, 3, 1)?;
    changed::arbiter(rt, p2, 1, 12, 2, 0)?;
    changed::arbiter(rt, p2, 1, 12, 2, 2)
}

fn phases(rt: &impl Print, p2: Record) -> io::Result<()> {
    changed::collecting(rt, p2, 2, 1, 2)?;
    changed::collecting(rt, p2, 3, 1, 2)?;
    changed::collecting(rt, p2, 2, 0, 2)?;
    changed::collecting(rt, p2, 2, 2, 2)?;
    changed::collecting(rt, p2, 2, 1, 3)?;
    changed::holding(rt, p2, 2, 1)?;
    changed::holding(rt, p2, 3, 1)?;
    changed::holding(rt, p2, 2, 0)?;
    changed::holding(rt, p2, 2, 2)
}

// The largest of all four numbers together, and one that is out of range at a time.
fn limits(rt: &impl Print) -> io::Result<()> {
    let twelve = by_hand::one_asked(12, 1);
    changed::sizes(rt, twelve, 12, 200, 64, 4095)?;
    changed::sizes(rt, twelve, 13, 200, 64, 4095)?;
    changed::sizes(rt, twelve, 0, 200, 64, 4095)?;
    changed::sizes(rt, twelve, 12, 201, 64, 4095)?;
    changed::sizes(rt, twelve, 12, 0, 64, 4095)?;
    changed::sizes(rt, twelve, 12, 200, 65, 4095)?;
    changed::sizes(rt, twelve, 12, 200, 0, 4095)?;
    changed::sizes(rt, twelve, 12, 200, 64, 4096)?;
    changed::sizes(rt, twelve, 12, 200, 64, 0)?;
    changed::sizes(rt, twelve, 11, 200, 64, 4095)
}

pub(crate) fn run(rt: &impl Print, p2: Record, empty: Record) -> io::Result<()> {
    empty_record(rt, empty)?;
    before_8(rt, p2)?;
    lanes(rt, p2)?;
    arbiters(rt, p2)?;
    phases(rt, p2)?;
    limits(rt)
}
