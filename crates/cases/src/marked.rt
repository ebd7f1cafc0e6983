// The marked tables P1 to P9 of document 01.
use crate::table;
use std::io;

fn p1(rt: &impl Print) -> io::Result<()> {
    table::check(rt, "P1", 1, 1, &[1])
}

// P2, and with a stock of 2 P3.
fn p2_p3(rt: &impl Print) -> io::Result<()> {
    let quorums = [3, 5, 6];
    table::check(rt, "P2", 3, 1, &quorums)?;
    table::check(rt, "P3", 3, 2, &quorums)
}

fn p4(rt: &impl Print) -> io::Result<()> {
    table::check(rt, "P4", 2, 5, &[1, 2])
}

// P5, and with a stock of 3 P6.
fn p5_p6(rt: &impl Print) -> io::Result<()> {
    let quorums = [7, 11, 13, 14];
    table::check(rt, "P5", 4, 2, &quorums)?;
    table::check(rt, "P6", 4, 3, &quorums)
}

fn p7(rt: &impl Print) -> io::Result<()> {
    table::check(rt, "P7", 4, 2, &[3, 12, 5, 10])
}

fn p8(rt: &impl Print) -> io::Result<()> {
    table::check(rt, "P8", 2, 1, &[1, 3])
}

fn p9(rt: &impl Print) -> io::Result<()> {
    table::check(rt, "P9", 2, 1, &[1, 2, 3])
}

pub(crate) fn tables(rt: &impl Print) -> io::Result<()> {
    p1(rt)?;
    p2_p3(rt)?;
    p4(rt)?;
    p5_p6(rt)?;
    p7(rt)?;
    p8(rt)?;
    p9(rt)
}
