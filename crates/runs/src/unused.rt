// Unused places of a record's arrays: whatever they hold, the calls answer as on the fresh record of P1.
use scripts::filled::filled;
use scripts::{by_hand, script};
use std::io;

// What stands in unused places is not there.
pub(crate) fn run(rt: &impl Print) -> io::Result<()> {
    script::play(
        rt,
        by_hand::one_asked(1, 1),
        b"one station: request(0,0,1) up(0,0) down(0,0) up(0,0) release(0) up(0,0) up(0,0) request(0,1,1) up(0,1) release(1)",
    )?;
    script::play(
        rt,
        filled(),
        b"unused places: request(0,0,1) up(0,0) down(0,0) up(0,0) release(0) up(0,0) up(0,0) request(0,1,1) up(0,1) release(1)",
    )?;
    Ok(())
}
