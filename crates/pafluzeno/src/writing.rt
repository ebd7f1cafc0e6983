// The journal's calls that write: a record, and the page of a text.
ghost use Rattle.std.specs.Prelude.{◌≡◌, length};
ghost use Rattle.journal_lines.specs.Forms.{journal_form};
ghost use Rattle.journal_reading.specs.JournalRecords.{numbers_of};
ghost use Rattle.journal_writing.specs.Page.{page_says, printing, printed_into};
ghost use Rattle.journal_writing.specs.Writing.{write_says, writing, written_into};
ghost use Rattle.pafluzeno.specs.Writing.{written_of, printed_of};

use journal_reading::JournalRecord;
use refusals::Refusal;

// What the record writer answers: the refusal, and the place after the record, on a refusal the given place. Numbers: the C interface.
#[repr(C)]
#[derive(Clone, Copy)]
pub struct Written {
    pub refusal: u8,
    pub place: usize,
}

// What printing a page answers: the refusal, and the bytes of the page. Numbers: the C interface.
#[repr(C)]
#[derive(Clone, Copy)]
pub struct Printed {
    pub refusal: u8,
    pub len: usize,
}

impl Written {
    fn of(outcome: Result<usize, Refusal>, at: usize) -> Written
        ensures { written_of result ≡ write_says at outcome }
    {
        Written {
            refusal: refusals::number_in(outcome),
            place: outcome.unwrap_or(at),
        }
    }
}

impl From<Result<usize, Refusal>> for Printed {
    ghost from_gives = { λ outcome printed. printed_of printed ≡ page_says outcome };

    fn from(outcome: Result<usize, Refusal>) -> Printed {
        Printed {
            refusal: refusals::number_in(outcome),
            len: outcome.unwrap_or(0),
        }
    }
}

// A record, written into the rest of a buffer from a given place.
#[unsafe(no_mangle)]
pub extern "C" fn pafluzeno_write_record(out: &mut [u8], at: usize, r: JournalRecord) -> Written
    ensures answer { written_of result ≡ writing journal_form (numbers_of r) (length out.old) at }
    ensures lent { out.new ≡ written_into journal_form (numbers_of r) out.old at }
{
    Written::of(journal_writing::write_record(out, at, r), at)
}

// The page of a text, into the front of a buffer.
#[unsafe(no_mangle)]
pub extern "C" fn pafluzeno_page(text: &[u8], out: &mut [u8]) -> Printed
    ensures answer { printed_of result ≡ printing text.now (length out.old) }
    ensures lent { out.new ≡ printed_into text.now out.old }
{
    Printed::from(journal_writing::print_page(text, out))
}
