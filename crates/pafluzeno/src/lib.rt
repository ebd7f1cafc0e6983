// The calls that a station makes from C or Rust, under the names of interface/pafluzeno.h.
#![tactic(auto)]

ghost use Rattle.std.specs.Prelude.{◌≡◌, length};
ghost use Rattle.quorum.specs.Answer.{answer};
ghost use Rattle.quorum.specs.Scratch.{cleaned};
ghost use Rattle.stations.specs.Sets.{next_from};
ghost use Rattle.pafluzeno.specs.Checks.{checked_says, next_says};

mod arrivals;
mod checks;
mod journal;
mod makers;
mod survivals;
mod tallies;
mod writing;

pub use arrivals::{Arrival, MessageKind, Reply, pafluzeno_tell};
pub use checks::{Checked, NextMember};
pub use journal::{
    Part, ReadRecord, pafluzeno_after_record, pafluzeno_read_line, pafluzeno_read_record,
};
pub use makers::{Made, pafluzeno_cube, pafluzeno_singleton, pafluzeno_uniform};
pub use survivals::{Counted, pafluzeno_outages};
pub use tallies::{Sum, Totals, pafluzeno_tally};
pub use writing::{Printed, Written, pafluzeno_page, pafluzeno_write_record};

// The check of a table.
#[unsafe(no_mangle)]
pub extern "C" fn pafluzeno_check(
    n: usize,
    k: usize,
    quorums: &[u16],
    scratch: &mut [u8],
) -> Checked
    ensures answered { checked_says result ≡ answer n k quorums.now (length scratch.old) }
    ensures cleaned { scratch.new ≡ cleaned scratch.old }
{
    quorum::check(n, k, quorums, scratch).into()
}

// The next member of a quorum from a station on, 16 if there is none, and how many members lie above it.
#[unsafe(no_mangle)]
pub extern "C" fn pafluzeno_next_member(quorum: u16, from: usize) -> NextMember
    ensures { next_says result ≡ next_from quorum from }
{
    stations::lowest_from(quorum, from).into()
}
