// Opening: some marked tables, and the examples of refusals 1 to 7.
use records::Record;
use scripts::opened::{open, open_on};
use std::io;

// P2, and with a stock of 2 P3, then P2 on one byte of scratch too few. Hands on the record of P2.
pub(crate) fn marked(rt: &impl Print) -> io::Result<Record> {
    let quorums = [3, 5, 6];
    let p2 = open(rt, b"P2", 3, 1, &quorums)?;
    open(rt, b"P3", 3, 2, &quorums)?;
    let mut short = [0u8; quorum::SCRATCH_BYTES - 1];
    open_on(rt, &mut short, b"refusal 5", 3, 1, &quorums)?;
    Ok(p2)
}

// Hands on the empty record.
pub(crate) fn one_to_four(rt: &impl Print) -> io::Result<Record> {
    let quorums = [1];
    let empty = open(rt, b"refusal 1", 13, 1, &quorums)?;
    open(rt, b"refusal 2", 1, 0, &quorums)?;
    open(rt, b"refusal 3", 1, 1, &[])?;
    open(rt, b"refusal 4", 3, 1, &[8])?;
    Ok(empty)
}

pub(crate) fn six_and_seven(rt: &impl Print) -> io::Result<()> {
    open(rt, b"refusal 6", 2, 5, &[1, 2])?;
    open(rt, b"refusal 7", 2, 1, &[1, 3])?;
    Ok(())
}
