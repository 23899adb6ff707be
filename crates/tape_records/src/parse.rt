// One record of the tape, parsed at an offset: its kind's layout, its judgement, its numbers.

ghost use Rattle.std.specs.Prelude.{◌≡◌, ◌+◌, ◌≤◌, ◌<◌, length, get_or};
ghost use Rattle.model.specs.Verdict.{first_refusal, verdict_of};
ghost use Rattle.model.specs.Tape.{sampled, weighed, body_length, decoded, body_rows};
ghost use Rattle.tape_records.specs.State.{counts_in, may};
ghost use Rattle.tape_records.specs.Record.{layout_of, whole_at, told_of, result_at};

use crate::bytes::{four_at, two_at};
use crate::state::ParserState;
use model::{Entry, Reason, Refusal};
use validation::{all_or_none, require};

// What the kind of a record fixes: the length of its body, and whether it is allowed here.
#[derive(Clone, Copy)]
struct Layout {
    body: usize,
    allowed: bool,
}

impl ParserState {
    // Whether the header and all samples have been read.
    fn sampled(self) -> bool
        ensures { result ≡ sampled (counts_in self) }
    {
        (self.header == 3) & (self.samples == self.pixels)
    }

    // Whether these have been, and all pair weights or none.
    fn weighed(self) -> bool
        ensures { result ≡ weighed (counts_in self) }
    {
        self.sampled() & all_or_none(self.weights, self.pairs)
    }
}

// The kind is the byte itself, and the match on it gives body length and place: document 01 names this form.
// Order: 1, 2, 3, all samples, then all pair weights or none, then all flow numbers or none, then 0.
#[tactic(auto, unfolding(model::specs::Tape::kinds))]
fn layout_of(kind: u8, s: ParserState) -> Option<Layout>
    ensures { result ≡ layout_of kind (may s kind) }
{
    let (body, allowed) = match kind {
        0 => (0, s.weighed() & all_or_none(s.flows, s.pairs)),
        1 => (4, s.header == 0),
        2 => (4, s.header == 1),
        3 => (4, s.header == 2),
        4 => (1, (s.header == 3) & (s.samples < s.pixels)),
        5 => (4, s.weighed() & (s.flows < s.pairs)),
        6 => (2, s.sampled() & (s.weights < s.pairs) & (s.flows == 0)),
        _ => return None,
    };
    Some(Layout { body, allowed })
}

// The rows of a record whose kind is known: 14; 13 at its kind byte; 15 (unless more may follow the end).
#[tactic(auto, unfolding(model::specs::Verdict::first_refusal))]
fn judge_body(
    len: usize,
    at: usize,
    kind: u8,
    layout: Layout,
    followed: bool,
) -> Result<(), Refusal>
    requires { (at < len) × (layout.body ≡ body_length kind) }
    ensures { verdict_of result ≡ first_refusal (body_rows followed len at kind layout.allowed) }
{
    let next = at + 1;
    require(layout.allowed, Reason::OutOfOrder, at)?;
    require(layout.body <= len - next, Reason::CutRecord, at)?;
    let trailing = !followed & ((kind == 0) & (next < len));
    require(!trailing, Reason::TrailingByte, next)
}

// The numbers of a record of this kind at an offset, whose body is whole.
#[tactic(auto, unfolding(model::specs::Tape::kinds))]
fn decode(tape: &[u8], at: usize, kind: u8) -> Entry
    requires { at + 1 + body_length kind ≤ length tape.now }
    ensures { result ≡ decoded kind (λ i. get_or tape.now (at + 1 + i) 0) }
{
    let body = at + 1;
    match kind {
        1 => Entry::Size {
            width: u32::from(two_at(tape, body)),
            height: u32::from(two_at(tape, body + 2)),
        },
        2 => Entry::WeightBox {
            weight: u32::from(two_at(tape, body)),
            low: tape[body + 2],
            high: tape[body + 3],
        },
        3 => Entry::RoundLimits {
            quick: u32::from(two_at(tape, body)),
            allowance: two_at(tape, body + 2),
        },
        4 => Entry::Sample { code: tape[body] },
        5 => Entry::Flow {
            value: four_at(tape, body),
        },
        6 => Entry::PairWeight {
            weight: u32::from(two_at(tape, body)),
        },
        _ => Entry::End,
    }
}

// Where the next record begins.
#[derive(Clone, Copy, Debug, PartialEq, Eq)]
pub struct Cursor {
    pub at: usize,
}

// What reading a record gives: the record, with the cursor beside it; or a refusal, whose place is the offset.
// An enum of its own, as document 01 names the form: with a `Result` of the pair reading a tape took half as long again.
#[derive(Clone, Copy, Debug, PartialEq, Eq)]
pub enum RecordResult {
    Record(Entry, Cursor),
    Refused(Refusal),
}

// The record at an offset, whose kind is known.
fn whole_record(tape: &[u8], at: usize, kind: u8, layout: Layout, followed: bool) -> RecordResult
    requires { (at < length tape.now) × (kind ≡ get_or tape.now at 0) × (layout.body ≡ body_length kind) }
    ensures { told_of result ≡ whole_at followed tape.now at layout.allowed }
{
    match judge_body(tape.len(), at, kind, layout, followed) {
        Err(refusal) => RecordResult::Refused(refusal),
        Ok(()) => {
            let entry = decode(tape, at, kind);
            let next = at + 1 + layout.body;
            RecordResult::Record(entry, Cursor { at: next })
        }
    }
}

// The record at an offset, with the kind byte that stands there.
fn record_of(tape: &[u8], at: usize, kind: u8, state: ParserState, followed: bool) -> RecordResult
    requires { (at < length tape.now) × (kind ≡ get_or tape.now at 0) }
    ensures { told_of result ≡ result_at followed tape.now at state }
{
    let Some(layout) = layout_of(kind, state) else {
        return RecordResult::Refused(Refusal {
            reason: Reason::UnknownKind,
            place: at,
        });
    };
    whole_record(tape, at, kind, layout, followed)
}

// The record at an offset of the tape, whose end may be followed by more bytes or not. The three kinds
// that a tape repeats are told apart here, so that the compiler makes a path for each: there the kind,
// and with it the body's length, is a constant.
pub fn next_record(tape: &[u8], at: usize, state: ParserState, followed: bool) -> RecordResult
    ensures { told_of result ≡ result_at followed tape.now at state }
{
    let Some(&kind) = tape.get(at) else {
        return RecordResult::Refused(Refusal {
            reason: Reason::MissingRecord,
            place: tape.len(),
        });
    };
    match kind {
        4 => record_of(tape, at, 4, state, followed),
        5 => record_of(tape, at, 5, state, followed),
        6 => record_of(tape, at, 6, state, followed),
        _ => record_of(tape, at, kind, state, followed),
    }
}
