// Records added up, as C has the answer.
ghost use Rattle.std.specs.Prelude.{◌≡◌};
ghost use Rattle.archive.specs.Tallies.{tally_of as outcome_says, tallying};
ghost use Rattle.pafluzeno.specs.Tallies.{amount, tally_of};

use refusals::Refusal;

// A sum in two words: `low`, and `high` times 2^64. No text has records enough to pass it. Two words: the C
// interface.
#[repr(C)]
#[derive(Clone, Copy)]
pub struct Sum {
    pub low: u64,
    pub high: u64,
}

// What adding up answers: the refusal, how many records there are, and the sums of `entered` and of `left`. Numbers: the C interface.
#[repr(C)]
#[derive(Clone, Copy)]
pub struct Totals {
    pub refusal: u8,
    pub records: usize,
    pub entered: Sum,
    pub left: Sum,
}

// What passes a word.
const WORD: u128 = 18446744073709551616;

impl From<u128> for Sum {
    ghost from_gives = { λ units sum. amount sum ≡ units };

    fn from(units: u128) -> Sum {
        Sum {
            low: (units % WORD) as u64,
            high: (units / WORD) as u64,
        }
    }
}

impl From<Result<archive::Totals, Refusal>> for Totals {
    ghost from_gives = { λ outcome totals. tally_of totals ≡ outcome_says outcome };

    fn from(outcome: Result<archive::Totals, Refusal>) -> Totals {
        match outcome {
            Ok(totals) => Totals {
                refusal: 0,
                records: totals.records,
                entered: Sum::from(totals.entered),
                left: Sum::from(totals.left),
            },
            Err(refusal) => Totals {
                refusal: refusal.number(),
                records: 0,
                entered: Sum { low: 0, high: 0 },
                left: Sum { low: 0, high: 0 },
            },
        }
    }
}

// A text that is records and nothing else, added up.
#[unsafe(no_mangle)]
pub extern "C" fn pafluzeno_tally(text: &[u8]) -> Totals
    ensures { tally_of result ≡ tallying text.now }
{
    Totals::from(archive::tally(text))
}
