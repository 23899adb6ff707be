// A tape, record by record, with nothing written. A scan that stopped where the bytes ended is taken
// up again from there when more have come.

ghost use Rattle.std.specs.Prelude.{◌≡◌};
ghost use Rattle.tape_reader.specs.Scan.{Reached, StopsAt};

use crate::reader::Reader;
use crate::transition::on_result;
use model::{Lent, Refusal};
use tape_records::state::ParserState;

// A scan that ended early: why, what had been read before the refused record, and where that begins.
#[derive(Clone, Copy, Debug, PartialEq, Eq)]
pub struct Stopped {
    pub refusal: Refusal,
    pub state: ParserState,
    pub at: usize,
}

impl From<Stopped> for Refusal {
    ghost from_gives = { λ stopped refusal. refusal ≡ stopped.refusal };

    fn from(stopped: Stopped) -> Refusal {
        let Stopped { refusal, .. } = stopped;
        refusal
    }
}

// One reader, moved on record by record, from the record at an offset: what has been read of a whole job, and where its
// end record is.
pub fn scan_tape(
    tape: &[u8],
    at: usize,
    before: ParserState,
    lent: Lent,
) -> Result<(ParserState, usize), Stopped>
    requires { Reached tape.now lent before at }
    ensures { StopsAt tape.now lent result }
{
    let mut reader = Reader::new(tape, at);
    let mut state = before;
    'records: loop {
        let read = reader.next(state, lent.followed);
        match on_result(state, read, reader.at, lent) {
            Err(refusal) => {
                return Err(Stopped {
                    refusal,
                    state,
                    at: reader.at,
                });
            }
            Ok(None) => return Ok((state, reader.at)),
            Ok(Some((counted, cursor))) => {
                state = counted;
                reader = reader.forward(cursor);
            }
        }
    }
}
