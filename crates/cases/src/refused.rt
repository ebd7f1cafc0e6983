// The examples of document 01's table of refusals.
use crate::table;
use std::io;

fn one_to_four(rt: &impl Print) -> io::Result<()> {
    table::check(rt, "refusal 1", 13, 1, &[1])?;
    table::check(rt, "refusal 2", 1, 0, &[1])?;

    table::check(rt, "refusal 3", 1, 1, &[])?;
    table::check(rt, "refusal 4", 3, 1, &[8])
}

fn five_to_seven(rt: &impl Print) -> io::Result<()> {
    table::check_short(rt, "refusal 5", 3, 1, &[3, 5, 6])?;
    table::check(rt, "refusal 6", 2, 5, &[1, 2])?;
    table::check(rt, "refusal 7", 2, 1, &[1, 3])
}

// A nested table has its width, and is not even, though in both all stations belong to equally many quorums, and the second has one size.
fn nested(rt: &impl Print) -> io::Result<()> {
    table::check(rt, "nested 3 5 6 7", 3, 1, &[3, 5, 6, 7])?;
    table::check(rt, "nested 1 1", 1, 1, &[1, 1])
}

// The check's own, 1 to 7.
pub(crate) fn tables(rt: &impl Print) -> io::Result<()> {
    one_to_four(rt)?;
    five_to_seven(rt)?;
    nested(rt)
}
