// The marked runs of document 01, P11 and P12, and what follows when station 0 gives its unit back.
use records::Record;
use scripts::{by_hand, script};
use std::io;

fn p11_p12(rt: &impl Print, p2: Record) -> io::Result<()> {
    let held = script::play(
        rt,
        p2,
        b"P11: request(0,0,1) up(0,0) down(0,0) up(0,1) down(0,1)",
    )?;
    let waits = script::play(rt, held, b"P12: request(1,2,1) up(1,1) down(1,1)")?;
    script::play(
        rt,
        waits,
        b"after P12: release(0) up(0,1) down(1,1) up(1,2) down(1,2)",
    )?;
    Ok(())
}

// Opening refuses P4. Made by hand, it lets out ten units of a stock of five.
fn p4(rt: &impl Print) -> io::Result<()> {
    let mut r = by_hand::one_asked(2, 5);
    r.quorums = 2;
    r.table[1] = 2;
    script::play(
        rt,
        r,
        b"P4: request(0,0,5) up(0,0) down(0,0) request(1,1,5) up(1,1) down(1,1)",
    )?;
    Ok(())
}

pub(crate) fn run(rt: &impl Print, p2: Record) -> io::Result<()> {
    p11_p12(rt, p2)?;
    p4(rt)
}
