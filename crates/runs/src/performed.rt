// P11 and P12 as one lent list of calls, and lists that are refused as a whole.
use machine::Do;
use records::Record;
use scripts::listed::list;
use std::io;

const REQUEST: u16 = Do::Request as u16;

const UP: u16 = Do::Up as u16;

const DOWN: u16 = Do::Down as u16;

// P11's five calls, and P12's three after them.
const CALLS: [u16; 32] = [
    REQUEST, 0, 0, 1, // station 0, quorum 0
    UP, 0, 0, 0, //
    DOWN, 0, 0, 0, //
    UP, 0, 1, 0, //
    DOWN, 0, 1, 0, //
    REQUEST, 1, 2, 1, // station 1, quorum 2
    UP, 1, 1, 0, //
    DOWN, 1, 1, 0,
];

// The answers before the list is performed, in a buffer of one number more than it has, and of one number less.
const LONG: [u16; 33] = [7; 33];

const SHORT: [u16; 31] = [7; 31];

pub(crate) fn run(rt: &impl Print, p2: Record) -> io::Result<()> {
    let mut answers = LONG;
    list(rt, b"P11 and P12, performed", p2, &CALLS, &mut answers)?;
    let mut short = SHORT;
    list(rt, b"refusal 16, performed", p2, &CALLS, &mut short)?;
    let mut unknown = CALLS;
    unknown[28] = 5; // no word has this number
    list(rt, b"refusal 15, performed", p2, &unknown, &mut short)
}
