// The tape's bytes and the offset of the next record, kept together. Each function over the struct is
// thin: the work is done by `next_record`, on the slice and the number.

ghost use Rattle.std.specs.Prelude.{◌≡◌};
ghost use Rattle.tape_records.specs.Record.{told_of, result_at};

use tape_records::parse::{Cursor, RecordResult, next_record};
use tape_records::state::ParserState;

#[derive(Clone, Copy)]
pub struct Reader<'a> {
    pub tape: &'a [u8],
    pub at: usize,
}

impl<'a> Reader<'a> {
    // A reader at the record that begins at an offset.
    pub fn new(tape: &'a [u8], at: usize) -> Reader<'a>
        ensures { (result.tape ≡ tape.entry) × (result.at ≡ at) }
    {
        Reader { tape, at }
    }

    // The next record: its kind with its numbers, and beside it the cursor that the reader is moved on to;
    // or a refusal with its offset. What has been read says which kinds may come, and `followed` whether
    // more bytes may follow the end record.
    pub fn next(self, state: ParserState, followed: bool) -> RecordResult
        ensures { told_of result ≡ result_at followed self.entry.tape.now self.entry.at state }
    {
        next_record(self.tape, self.at, state, followed)
    }

    // The reader moved on to the record at a cursor.
    pub fn forward(self, cursor: Cursor) -> Reader<'a>
        ensures { (result.tape ≡ self.entry.tape) × (result.at ≡ cursor.at) }
    {
        Reader {
            at: cursor.at,
            ..self
        }
    }
}
