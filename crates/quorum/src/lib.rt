// The check of a quorum table: it accepts exactly the k-arbiters of RR-2523 within document 01's limits.
#![tactic(auto)]

ghost use Rattle.std.specs.Prelude.{◌≡◌, length};
ghost use Rattle.refusals.specs.Numbers.{number_of};
ghost use Rattle.quorum.specs.Answer.{answer, rejection_of, said};
ghost use Rattle.quorum.specs.Scratch.{scratch_bytes, cleaned};
ghost use Rattle.quorum.specs.declared.Rejected.TheVariants.{Refused};

use need::Bytes;
use refusals::Refusal;
use table::Table;

mod even;
mod family;
pub mod limits;
mod need;
mod nested;
mod scratch;
mod table;
mod without;

// Document 01's limits: stations, units of the stock, quorums of a table.
pub const MOST_STATIONS: usize = 12;

pub const MOST_UNITS: usize = 200;

pub const MOST_QUORUMS: usize = 64;

// The bytes of scratch that the check wants.
pub const SCRATCH_BYTES: usize = 4096;

// An accepted table: its width, 0 where there is none, as the definition `width` has it, and whether it is even in both senses.
#[derive(Clone, Copy)]
pub struct Accepted {
    pub width: usize,
    pub even: bool,
}

// A table that is not accepted.
#[derive(Clone, Copy)]
pub enum Rejected {
    // By one of the refusals 1 to 5, which come before its width.
    Refused(Refusal),
    // By 6. The first `width` numbers of the family are those of quorums without a common member; it is an array, since there is no heap.
    NoCommonMember {
        width: usize,
        even: bool,
        family: [u8; MOST_STATIONS],
    },
    // By 7.
    Nested {
        width: usize,
    },
}

impl Rejected {
    // The refusal that it is rejected by.
    pub fn refusal(self) -> Refusal
        ensures { number_of result ≡ rejection_of self }
    {
        match self {
            Rejected::Refused(refusal) => refusal,
            Rejected::NoCommonMember {
                width: _,
                even: _,
                family: _,
            } => Refusal::NoCommonMember,
            Rejected::Nested { width: _ } => Refusal::Nested,
        }
    }
}

impl From<Rejected> for Refusal {
    ghost from_gives = { λ rejected refusal. number_of refusal ≡ rejection_of rejected };

    fn from(rejected: Rejected) -> Refusal {
        rejected.refusal()
    }
}

impl From<Refusal> for Rejected {
    ghost from_gives = { λ refusal rejected. rejected ≡ Refused refusal };

    fn from(refusal: Refusal) -> Rejected {
        Rejected::Refused(refusal)
    }
}

// The answer to a table within the limits, on as many bytes of scratch as the check wants.
fn judge(table: &Table, bytes: &mut Bytes) -> Result<Accepted, Rejected>
    ensures { said result ≡ answer table.now.stations table.now.stock table.now.quorums.now scratch_bytes }
{
    table.fill(bytes);
    let width = table.width(bytes);
    if table.lacks_common(width) {
        let family = table.first_family(bytes);
        let even = table.is_even();
        return Err(Rejected::NoCommonMember {
            width,
            even, // as on an accepted table
            family,
        });
    }
    if table.is_nested() {
        return Err(Rejected::Nested { width });
    }
    Ok(Accepted {
        width,
        even: table.is_even(),
    })
}

// The same, on those bytes as a part of a scratch. Another length is no part of one that is long enough.
fn judge_in(table: &Table, bytes: &mut [u8]) -> Result<Accepted, Rejected>
    requires { length bytes.old ≡ scratch_bytes }
    ensures { said result ≡ answer table.now.stations table.now.stock table.now.quorums.now scratch_bytes }
{
    match bytes.try_into() {
        Ok(bytes) => judge(table, bytes),
        Err(_) => Err(Rejected::Refused(Refusal::ShortScratch)),
    }
}

// The same, of any table and scratch, whose numbers and slices come apart, as C lends them to `check`. It leaves the first bytes of a long
// scratch as it pleases.
fn answer_of(n: usize, k: usize, quorums: &[u16], scratch: &mut [u8]) -> Result<Accepted, Rejected>
    ensures answered { said result ≡ answer n k quorums.now (length scratch.old) }
    ensures cleaned { cleaned scratch.new ≡ cleaned scratch.old }
{
    let table = Table::within_limits(n, k, quorums)?;
    if scratch.len() < SCRATCH_BYTES {
        return Err(Rejected::Refused(Refusal::ShortScratch));
    }
    judge_in(&table, &mut scratch[..SCRATCH_BYTES])
}

// Refusal, width, even and family of the table, for any numbers and slices. A lent scratch of 4,096
// bytes or more has zeros in its first 4,096 bytes afterwards, on every answer; a shorter one stays.
pub fn check(n: usize, k: usize, quorums: &[u16], scratch: &mut [u8]) -> Result<Accepted, Rejected>
    ensures answered { said result ≡ answer n k quorums.now (length scratch.old) }
    ensures cleaned { scratch.new ≡ cleaned scratch.old }
{
    let answer = answer_of(n, k, quorums, scratch);
    scratch::clean(scratch); // what judging left in it
    answer
}
