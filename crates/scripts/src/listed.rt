// A list of calls, performed, and its line.
use records::Record;
use std::io;

// The refusal of the list, and all numbers of the buffer that is lent for the answers.
pub fn list(
    rt: &impl Print,
    name: &[u8],
    r: Record,
    calls: &[u16],
    answers: &mut [u16],
) -> io::Result<()> {
    let performed = machine::perform(r, calls, answers);
    let refused = refusals::number_in(performed.outcome);
    rt.write_all(name)?;
    print!(rt; " refused={refused} answers")?;
    for number in answers.iter() {
        print!(rt; " {number}")?;
    }
    println!(rt; "")
}
