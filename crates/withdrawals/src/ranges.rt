// What a record in range may hold of withdrawals, and where.
use plain::{Message, Phase};
use records::Record;
use scripts::by_hand::{self, Way};
use scripts::{changed, script};
use std::io;

fn lanes(rt: &impl Print, p2: Record) -> io::Result<()> {
    changed::lane(rt, p2, Way::Up, 4, Message::Withdraw)?;
    changed::lane(rt, p2, Way::Up, 1, Message::Gone)?;
    changed::lane(rt, p2, Way::Down, 1, Message::Gone)?;
    changed::lane(rt, p2, Way::Down, 1, Message::Withdraw)
}

// A withdrawing station, and the empty record.
fn stations(rt: &impl Print, p2: Record) -> io::Result<()> {
    script::play(
        rt,
        by_hand::with_phase(p2, 2, Phase::Withdrawing),
        b"withdrawing: withdraw(2) request(0,0,1)",
    )?;
    script::play(
        rt,
        by_hand::fresh(3, 2, &[3, 5, 6]),
        b"refusal 19: withdraw(0) withdraw(9)",
    )?;
    Ok(())
}

pub(crate) fn run(rt: &impl Print, p2: Record) -> io::Result<()> {
    lanes(rt, p2)?;
    stations(rt, p2)
}
