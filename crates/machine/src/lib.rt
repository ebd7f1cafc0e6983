// The machine: a fresh record of an accepted table, and lists of calls on a record.
#![tactic(auto)]

ghost use Rattle.std.specs.Prelude.{◌≡◌, OnErr, length};
ghost use Rattle.quorum.specs.Answer.{said, answer};
ghost use Rattle.quorum.specs.Scratch.{cleaned};
ghost use Rattle.records.specs.View.{view};
ghost use Rattle.units.specs.Units.{asked_with as asked_with_rule, stock_of as stock_of_rule};
ghost use Rattle.machine.specs.Opening.{opening, opened_of};
ghost use Rattle.machine.specs.Performing.{performance, performed_of, answers_in};

use quorum::{Accepted, Rejected};
use records::Record;
use refusals::Refusal;

mod call_lists;
mod doing;
mod opening;

pub use call_lists::is_formed;
pub use doing::Do;

// Whether a list of numbers is a list of calls of the form.
pub use call_lists::all_formed;

// A lent list of calls has four numbers a call: what to do, the station, the quorum of a request or the arbiter of up and down (0 otherwise),
// and the units of a request (0 otherwise). Its answers are four numbers a call: refusal, units entered, units left, members
// still to come.
pub const CALL_NUMBERS: usize = 4;

pub const ANSWER_NUMBERS: usize = 4;

// What a list of calls answers besides the numbers: whether the list was refused, and the record after it. A refused list hands back the record that it
// was given.
#[derive(Clone, Copy)]
pub struct Performed {
    pub outcome: Result<(), Refusal>,
    pub record: Record,
}

// What opening answers with all that the check says of the table.
#[derive(Clone, Copy)]
pub struct Inspected {
    pub checked: Result<Accepted, Rejected>,
    pub record: Record,
}

// What opening answers.
#[derive(Clone, Copy)]
pub struct Opened {
    pub outcome: Result<(), Refusal>,
    pub record: Record,
}

// The whole answer of the check, and a fresh record of the table, or on a refusal the empty record. The scratch is left as the check leaves
// it.
#[tactic(auto, using(crate::proofs::CheckingStock::checked))]
pub fn inspect(n: usize, k: usize, quorums: &[u16], scratch: &mut [u8]) -> Inspected
    ensures checked { said result.checked ≡ answer n (asked_with_rule (stock_of_rule k)) quorums.now (length scratch.old) }
    ensures state { view result.«record» ≡ (opening n (stock_of_rule k) quorums.now (length scratch.old)).state }
    ensures cleaned { scratch.new ≡ cleaned scratch.old }
{
    let stock = units::stock_of(k);
    let checked = quorum::check(n, units::asked_with(stock), quorums, scratch);
    let record = match checked {
        Ok(_) => opening::fresh(n, stock, quorums),
        Err(_) => opening::empty(),
    };
    Inspected { checked, record }
}

// The refusal of the check, and the same record.
pub fn open(n: usize, k: usize, quorums: &[u16], scratch: &mut [u8]) -> Opened
    ensures opened { opened_of result ≡ opening n (stock_of_rule k) quorums.now (length scratch.old) }
    ensures cleaned { scratch.new ≡ cleaned scratch.old }
{
    let Inspected { checked, record } = inspect(n, k, quorums, scratch);
    let outcome = match checked {
        Ok(_) => Ok(()),
        Err(rejected) => Err(rejected.refusal()),
    };
    Opened { outcome, record }
}

// A lent list of calls, each on the record that the one before returned, and their answers in a lent buffer. A list that is not of the form
// (15), or whose answers find no room (16), is refused as a whole.
pub fn perform(r: Record, calls: &[u16], answers: &mut [u16]) -> Performed
    ensures performed { performed_of result ≡ performance (view r) calls.now (length answers.old) }
    ensures refused { OnErr result.outcome (result.«record» ≡ r) }
    ensures answers { answers.new ≡ answers_in (view r) calls.now answers.old }
{
    match call_lists::tested(calls, answers.len()) {
        Ok(()) => Performed {
            outcome: Ok(()),
            record: call_lists::run(r, calls, answers),
        },
        Err(refusal) => Performed {
            outcome: Err(refusal),
            record: r,
        },
    }
}
