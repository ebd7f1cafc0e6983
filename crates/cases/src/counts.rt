// The outages that a table survives, as a line.
use std::io;

// A table's line, below what was said of it: the refusal, and the counts from the set without stations up.
pub(crate) fn print_line(rt: &impl Print, n: usize, k: usize, quorums: &[u16]) -> io::Result<()> {
    let mut scratch = [0u8; quorum::SCRATCH_BYTES];
    let counted = outages::count(n, k, quorums, &mut scratch);
    let refusal = refusals::number_in(counted);
    print!(rt; "n={n} k={k} outages={refusal} counts")?;
    if let Ok(counts) = counted {
        for count in counts.iter().take(n + 1) {
            print!(rt; " {count}")?;
        }
    }
    Ok(())
}
