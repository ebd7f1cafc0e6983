// Tables that are turned away by two rules: the check answers with the earlier one. P9 is 6 before 7.
use crate::table;
use std::io;

fn limits(rt: &impl Print) -> io::Result<()> {
    table::check(rt, "check 1 before 2", quorum::MOST_STATIONS + 1, 0, &[1])?;

    table::check(rt, "check 2 before 3", 1, quorum::MOST_UNITS + 1, &[])
}

// One quorum too many, and the first names a station that is not there.
fn too_many(rt: &impl Print) -> io::Result<()> {
    let mut quorums = [7u16; quorum::MOST_QUORUMS + 1];
    quorums[0] = 8;
    table::check(rt, "check 3 before 4", 3, 1, &quorums)
}

fn short_scratch(rt: &impl Print) -> io::Result<()> {
    table::check_short(rt, "check 4 before 5", 3, 1, &[8])?;
    table::check_short(rt, "check 5 before 6", 2, 5, &[1, 2])
}

pub(crate) fn tables(rt: &impl Print) -> io::Result<()> {
    limits(rt)?;
    too_many(rt)?;
    short_scratch(rt)
}
