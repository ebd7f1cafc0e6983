// Tables that are even in one of the two senses: "every station is in four quorums, yet the sizes are 3 and 4", and two pairs of which station 0
// is in both. P3 is even in both, on 6.
use crate::table;
use std::io;

pub(crate) fn tables(rt: &impl Print) -> io::Result<()> {
    table::check(rt, "two sizes", 6, 1, &[7, 28, 49, 42, 54, 45, 27])?;
    table::check(rt, "two shares", 3, 1, &[3, 5])
}
