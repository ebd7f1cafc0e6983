// Opening a table, and its line.
use records::Record;
use std::io;

// Opens the table on the scratch, and prints the refusal and the record's n. n, k and the quorums stay three, as `open` takes them.
pub fn open_on(
    rt: &impl Print,
    scratch: &mut [u8],
    name: &[u8],
    n: usize,
    k: usize,
    quorums: &[u16],
) -> io::Result<Record> {
    let opened = machine::open(n, k, quorums, scratch);
    let refused = refusals::number_in(opened.outcome);
    rt.write_all(name)?;
    println!(rt; " open({n},{k}) refused={refused} n={}", opened.record.n)?;
    Ok(opened.record)
}

// On just enough scratch.
pub fn open(
    rt: &impl Print,
    name: &[u8],
    n: usize,
    k: usize,
    quorums: &[u16],
) -> io::Result<Record> {
    let mut scratch = [0u8; quorum::SCRATCH_BYTES];
    open_on(rt, &mut scratch, name, n, k, quorums)
}
