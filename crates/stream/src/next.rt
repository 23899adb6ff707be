// What the bytes at hand come to.

ghost use Rattle.std.specs.Prelude.{Bool, List, ℕ, ◌≤◌, ◌<◌, length, take};
ghost use Rattle.model.specs.declared.Lent.{Lent};
ghost use Rattle.model.specs.declared.Totals.{Totals};
ghost use Rattle.model.specs.Verdict.{number_of};
ghost use Rattle.tape_reader.specs.Scan.{Reached};
ghost use Rattle.stream.specs.Jobs.{Ready, lent_in, Stopped, Answered};
ghost use Rattle.stream.specs.AtHand.{NextJob};

use crate::totals::with_job;
use job::answer::answer_of;
use model::{Ending, Job, Lent, Reason, Refusal, Totals};
use tape_reader::read::read_numbers;
use tape_reader::scan::{self, scan_tape};
use tape_records::state::ParserState;

// What the bytes at hand come to, where they refuse no job.
#[derive(Clone, Copy, Debug, PartialEq, Eq)]
pub enum Next {
    // more bytes are wanted: what has been read of the job, and where its next record begins
    More(ParserState, usize),
    // no job is left
    Over,
    // the totals with the job counted, and how many bytes it has
    Counted(Totals, usize),
}

// A job whose records have not all passed: refused, or the bytes at hand are too few; 17 where they are
// and the input goes past its first 65,536.
fn unfinished(bytes: &[u8], ended: bool, s: scan::Stopped) -> Result<Next, Refusal>
    ensures { (lent : Lent) (totals : Totals) → totals.jobs < 65535 → Stopped (take 65536 bytes.now) lent (number_of s.refusal.reason) s.refusal.place s.state s.at → NextJob bytes.now ended lent totals result }
{
    if !s.refusal.reason.is_too_short() {
        return Err(s.refusal);
    }
    if 65536 < bytes.len() {
        return Err(Refusal {
            reason: Reason::LongInput,
            place: 0,
        });
    }
    if !ended {
        return Ok(Next::More(s.state, s.at));
    }
    if bytes.is_empty() {
        Ok(Next::Over)
    } else {
        Err(s.refusal)
    }
}

// A job of so many bytes whose records have passed: refused by 8, or counted with its answer.
fn count_job(
    read: Result<Job, Refusal>,
    answer: Result<Ending, Refusal>,
    totals: Totals,
    size: usize,
) -> Result<Next, Refusal>
    requires { (bytes : List ℕ) × (lent : Lent) × Answered bytes lent totals read answer size }
    ensures { (bytes : List ℕ) (ended : Bool) (lent : Lent) → totals.jobs < 65535 → Answered (take 65536 bytes) lent totals read answer size → NextJob bytes ended lent totals result }
{
    let t = read?.terms;
    let n = validation::pixels(t.width, t.height);
    Ok(Next::Counted(with_job(totals, n, answer), size))
}

// The next job of a season, of which these bytes are at hand, and whether the input has ended behind
// them. A job is read from its first 65,536 bytes; its records up to an offset have been read before.
pub fn next_job(
    bytes: &[u8],
    ended: bool,
    at: usize,
    before: ParserState,
    totals: Totals,
    samples: &mut [u8],
    weights: &mut [i32],
    flow: &mut [i32],
    image: &mut [i32],
    work: &mut [i32],
) -> Result<Next, Refusal>
    requires { Reached bytes.now (lent_in (length samples.old) (length weights.old) (length flow.old)) before at × (at ≤ 65536) × Ready totals (length samples.old) (length flow.old) (length image.old) (length work.old) }
    ensures { NextJob bytes.now ended (lent_in (length samples.old) (length weights.old) (length flow.old)) totals result }
{
    let lent = Lent {
        samples: samples.len(),
        weights: weights.len(),
        flow: flow.len(),
        followed: true,
    };
    let count = bytes.len().min(65536);
    let front = &bytes[..count];
    match scan_tape(front, at, before, lent) {
        Err(stopped) => unfinished(bytes, ended, stopped),
        Ok((state, last)) => {
            let size = last + 1;
            let read = read_numbers(&front[..size], state, samples, weights, flow);
            let answer = answer_of(read, samples, weights, flow, image, work);
            count_job(read, answer, totals, size)
        }
    }
}
