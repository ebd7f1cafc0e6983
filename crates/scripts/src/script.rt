// An example is a text: its name, a colon, and the machine's calls, one space before each. All numbers in it have one digit.
use calls::{Answer, Returned};
use records::Record;
use std::io;

// The number of one digit that stands at a place of a call; 0 where there is none.
fn number_at(call: &[u8], place: usize) -> usize {
    match call.get(place) {
        Some(digit) => digit.saturating_sub(b'0') as usize,
        None => 0,
    }
}

// The five calls, `request(0,0,1)`, `withdraw(0)`, `release(0)`, `down(0,0)` and `up(0,0)`, are told apart by their length.
fn answer(r: Record, call: &[u8]) -> Answer {
    match call.len() {
        14 => calls::request(
            r,
            number_at(call, 8),
            number_at(call, 10),
            number_at(call, 12),
        ),
        11 => calls::withdraw(r, number_at(call, 9)),
        10 => calls::release(r, number_at(call, 8)),
        9 => calls::down(r, number_at(call, 5), number_at(call, 7)),
        _ => calls::up(r, number_at(call, 3), number_at(call, 5)),
    }
}

// The line's end, and the record that the machine handed back.
pub fn answered(rt: &impl Print, a: Answer) -> io::Result<Record> {
    let refused = refusals::number_in(a.outcome);
    let (entered, left, above) = match a.outcome {
        Ok(
            Returned {
                entered,
                left,
                above,
            },
        ) => (units::number_of(entered), units::number_of(left), above),
        Err(_) => (0, 0, 0),
    };
    println!(rt; " refused={refused} entered={entered} left={left} above={above}")?;
    Ok(a.record)
}

// One call: its line, and the record after it.
pub fn call(rt: &impl Print, name: &[u8], r: Record, call: &[u8]) -> io::Result<Record> {
    rt.write_all(name)?;
    rt.write_all(b" ")?;
    rt.write_all(call)?;
    answered(rt, answer(r, call))
}

// The whole example, from the record given: its calls one after the other, each on the record that the one before handed back.
pub fn play(rt: &impl Print, start: Record, example: &[u8]) -> io::Result<Record> {
    let Some(size) = example.iter().position(|byte| *byte == b':') else {
        return Ok(start);
    };
    let name = &example[..size];
    let mut r = start;
    for text in example[size + 1..].split(|byte| *byte == b' ').skip(1) {
        r = call(rt, name, r, text)?;
    }
    Ok(r)
}
