// The transition of the parser on one record: its terms are judged at the record, and the counts move on. That another
// number can be counted (`CountsFit`) is a clause and no field of the state: no state keeps it, a scan shows it of its own.

ghost use Rattle.std.specs.Prelude.{◌≡◌, [], ◌∷◌};
ghost use Rattle.model.specs.declared.Entry.{Entry};
ghost use Rattle.model.specs.Verdict.{told};
ghost use Rattle.tape_records.specs.Record.{told_of};
ghost use Rattle.model.specs.Calls.{weight_row, box_row, rounds_row};
ghost use Rattle.model.specs.Tape.{sized, with_box, entry_rows};
ghost use Rattle.tape_reader.specs.Transition.{CountsFit, advanced, unless_refused, judged_entry, transition_on};

use model::{Entry, Lent, Reason, Refusal, Rounds, Terms};
use tape_records::parse::{Cursor, RecordResult};
use tape_records::state::ParserState;
use validation::{
    box_allowed, pairs, pixels, quick_allowed, require, size_allowed, weight_allowed,
};

// 1 size, at the record; 16 right after it, for all samples, and for all pairs in the weight and in
// the flow buffer.
#[tactic(auto, unfolding(model::specs::Verdict::first_refusal))]
fn on_size(
    state: ParserState,
    width: u32,
    height: u32,
    at: usize,
    lent: Lent,
) -> Result<ParserState, Refusal>
    ensures { told result ≡ unless_refused (entry_rows at lent (Entry.Size width height)) (advanced state (Entry.Size width height)) }
{
    require(size_allowed(width, height), Reason::Size, at)?;
    let pixels = pixels(width, height);
    let pairs = pairs(width, height);
    let short = (lent.samples < pixels) | (lent.weights < pairs) | (lent.flow < pairs);
    require(!short, Reason::ShortBuffer, 0)?;
    let terms = Terms {
        width,
        height,
        ..Terms::default()
    };
    Ok(ParserState {
        header: 1,
        terms,
        pixels,
        pairs,
        ..state
    })
}

// 2 weight; 3 low above high.
#[tactic(auto, unfolding(model::specs::Verdict::first_refusal))]
fn on_weight_box(
    state: ParserState,
    weight: u32,
    low: u8,
    high: u8,
    at: usize,
) -> Result<ParserState, Refusal>
    ensures { told result ≡ unless_refused (weight_row weight at ∷ box_row (with_box (sized 0 0) weight low high) at ∷ []) (advanced state (Entry.WeightBox weight low high)) }
{
    require(weight_allowed(weight), Reason::Weight, at)?;
    require(box_allowed(low, high), Reason::Levels, at)?;
    let terms = Terms {
        weight,
        low,
        high,
        ..state.terms
    };
    Ok(ParserState {
        header: 2,
        terms,
        ..state
    })
}

// 10 quick rounds over 4,096.
#[tactic(auto, unfolding(model::specs::Verdict::first_refusal))]
fn on_rounds(
    state: ParserState,
    quick: u32,
    allowance: u16,
    at: usize,
) -> Result<ParserState, Refusal>
    ensures { told result ≡ unless_refused (rounds_row (record { quick = quick; allowance = allowance }) at ∷ []) (advanced state (Entry.RoundLimits quick allowance)) }
{
    require(quick_allowed(quick), Reason::QuickRounds, at)?;
    Ok(ParserState {
        header: 3,
        rounds: Rounds { quick, allowance },
        ..state
    })
}

// 2 weight, at the record of its pair.
#[tactic(auto, unfolding(model::specs::Verdict::first_refusal))]
fn on_pair_weight(state: ParserState, own: u32, at: usize) -> Result<ParserState, Refusal>
    requires { CountsFit state }
    ensures { told result ≡ unless_refused (weight_row own at ∷ []) (advanced state (Entry.PairWeight own)) }
{
    require(weight_allowed(own), Reason::Weight, at)?;
    Ok(ParserState {
        weights: state.weights + 1,
        ..state
    })
}

// A record that has been read: its terms are judged, and it is counted. None is the end record.
#[tactic(auto, unfolding(model::specs::Verdict::first_refusal))]
fn on_entry(
    state: ParserState,
    entry: Entry,
    at: usize,
    lent: Lent,
) -> Result<Option<ParserState>, Refusal>
    requires { CountsFit state }
    ensures { told result ≡ judged_entry state entry at lent }
{
    let counted = match entry {
        Entry::End => return Ok(None),
        Entry::Size { width, height } => on_size(state, width, height, at, lent)?,
        Entry::WeightBox { weight, low, high } => { on_weight_box(state, weight, low, high, at)? }
        Entry::RoundLimits { quick, allowance } => on_rounds(state, quick, allowance, at)?,
        Entry::Sample { .. } => ParserState {
            samples: state.samples + 1,
            ..state
        },
        Entry::Flow { .. } => ParserState {
            flows: state.flows + 1,
            ..state
        },
        Entry::PairWeight { weight } => on_pair_weight(state, weight, at)?,
    };
    Ok(Some(counted))
}

// The transition on what reading a record gave: a refusal, none at the job's end, or what has been read now with the
// place of the next record.
pub fn on_result(
    state: ParserState,
    read: RecordResult,
    at: usize,
    lent: Lent,
) -> Result<Option<(ParserState, Cursor)>, Refusal>
    requires { CountsFit state }
    ensures { told result ≡ transition_on (told_of read) at state lent }
{
    match read {
        RecordResult::Refused(refusal) => Err(refusal),
        RecordResult::Record(entry, next) => match on_entry(state, entry, at, lent)? {
            None => Ok(None),
            Some(counted) => Ok(Some((counted, next))),
        },
    }
}
