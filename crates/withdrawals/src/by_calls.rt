// Stations that withdraw, by calls from a fresh record.
use records::Record;
use scripts::script;
use std::io;

// Station 1 waits behind station 0. Between its withdrawal and GONE it can do nothing, and withdraws once. Idle it has nothing to withdraw.
fn in_line(rt: &impl Print, p2: Record) -> io::Result<()> {
    script::play(
        rt,
        p2,
        b"withdrawn in line: request(0,0,1) up(0,0) request(1,0,1) up(1,0) withdraw(1) withdraw(1) request(1,0,1) release(1) up(1,0) down(1,0) withdraw(1) request(1,0,1)",
    )?;
    Ok(())
}

// The GRANT under way is dropped, and the unit is free again: the next in line has it. A station that holds does not withdraw.
fn granted(rt: &impl Print, p2: Record) -> io::Result<()> {
    script::play(
        rt,
        p2,
        b"withdrawn when granted: request(0,0,1) up(0,0) request(1,0,1) up(1,0) withdraw(0) down(0,0) up(0,0) down(1,0) up(1,1) down(1,1) withdraw(1) down(0,0) down(0,0)",
    )?;
    Ok(())
}

// RELEASE, REQUEST and WITHDRAW in one lane. The grant between them is dropped, and all three units are free again.
fn behind(rt: &impl Print, shared: Record) -> io::Result<()> {
    script::play(
        rt,
        shared,
        b"behind release and request: request(1,0,1) up(1,0) down(1,0) release(1) request(1,0,2) withdraw(1) up(1,0) up(1,0) up(1,0) down(1,0) down(1,0) request(2,0,3) up(2,0) down(2,0)",
    )?;
    Ok(())
}

// RELEASE to the first member, WITHDRAW to the second, and nothing to station 2.
fn second_member(rt: &impl Print, p2: Record) -> io::Result<()> {
    script::play(
        rt,
        p2,
        b"at the second member: request(0,0,1) up(0,0) down(0,0) withdraw(0) up(0,0) up(0,0) up(0,1) down(0,1) up(0,1) up(0,2) down(0,1) request(1,0,1) up(1,0) down(1,0) up(1,1) down(1,1)",
    )?;
    Ok(())
}

pub(crate) fn run(rt: &impl Print, p2: Record, shared: Record) -> io::Result<()> {
    in_line(rt, p2)?;
    granted(rt, p2)?;
    behind(rt, shared)?;
    second_member(rt, p2)
}
