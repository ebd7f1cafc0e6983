// The journal's calls that read: lines and records. A part of a lent text goes to C as its place in that text and its length.
ghost use Rattle.std.specs.Prelude.{◌≡◌, length};
ghost use Rattle.journal_lines.specs.Forms.{journal_form};
ghost use Rattle.journal_lines.specs.Lines.{line_value, line_place};
ghost use Rattle.journal_reading.specs.JournalRecords.{read_says, record_in, after_record as after_record_rule};
ghost use Rattle.pafluzeno.specs.Reading.{read_of};

use journal_reading::JournalRecord;
use refusals::Refusal;

// A part of a lent text: where it begins, and its bytes.
#[repr(C)]
#[derive(Clone, Copy)]
pub struct Part {
    pub place: usize,
    pub len: usize,
}

// What the record reader answers: the refusal, the record, and the bytes that lie before what is handed on. Numbers: the C interface.
#[repr(C)]
#[derive(Clone, Copy)]
pub struct ReadRecord {
    pub refusal: u8,
    pub record: JournalRecord,
    pub taken: usize,
}

// What stands for the record where it is refused.
const REQUEST_AND_ZEROS: JournalRecord = JournalRecord {
    what: machine::Do::Request as u16,
    station: 0,
    with: 0,
    units: 0,
    refused: 0,
    entered: 0,
    left: 0,
};

impl ReadRecord {
    // Of a text of so many bytes, all of which count as taken on a refusal, since nothing is handed on.
    #[tactic(auto, unfolding(journal_reading::specs::JournalRecords::numbers_of))]
    fn of(outcome: Result<journal_reading::ReadRecord, Refusal>, bytes: usize) -> ReadRecord
        ensures { read_of result ≡ read_says bytes outcome }
    {
        match outcome {
            Ok(read) => ReadRecord {
                refusal: 0,
                record: read.record,
                taken: read.taken,
            },
            Err(refusal) => ReadRecord {
                refusal: refusal.number(),
                record: REQUEST_AND_ZEROS,
                taken: bytes,
            },
        }
    }
}

// The value of the line that a text begins with, by its key. The empty part, in front of the text, is 15.
#[unsafe(no_mangle)]
pub extern "C" fn pafluzeno_read_line(key: &[u8], text: &[u8]) -> Part
    ensures { result ≡ record { place = line_place journal_form key.now text.now; len = length (line_value journal_form key.now text.now) } }
{
    match journal_lines::read_line(key, text) {
        Ok(value) => Part {
            place: key.len() + 1,
            len: value.len(),
        },
        Err(_) => Part { place: 0, len: 0 },
    }
}

// The record that a text begins with, and the bytes that lie before what is handed on.
#[unsafe(no_mangle)]
pub extern "C" fn pafluzeno_read_record(text: &[u8]) -> ReadRecord
    ensures { read_of result ≡ record_in journal_form text.now }
{
    ReadRecord::of(journal_reading::read_record(text), text.len())
}

// The text after the record that a text begins with; on 15 the empty part at its end.
#[unsafe(no_mangle)]
pub extern "C" fn pafluzeno_after_record(text: &[u8]) -> Part
    ensures { result ≡ record { place = (record_in journal_form text.now).taken; len = length (after_record_rule journal_form text.now) } }
{
    let rest = journal_reading::after_record(text);
    let len = rest.len();
    let place = text.len() - len;
    Part { place, len }
}
