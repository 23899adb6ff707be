// Rows of document 01's table of refusals, each judged by itself, and the lengths together.

ghost use Rattle.std.specs.Prelude.{◌<◌, ◌≤◌, ◌≡◌, [], ◌∷◌, true, not, ltb, length};
ghost use Rattle.lists.specs.Lists.{below};
ghost use Rattle.model.specs.Verdict.{row, first_refusal, number_of, verdict_of};
ghost use Rattle.model.specs.Grid.{size_allowed, weight_of};
ghost use Rattle.model.specs.Calls.{pixels_of, pairs_of, pair_weights_row, flow_row};
ghost use Rattle.validation.specs.Lengths.{length_rows, price_length_rows, write_length_rows};
ghost use Rattle.validation.specs.Outside.{outside_row};

use crate::beyond::first_beyond;
use crate::counts::{pairs, pixels};
use crate::limits::{all_or_none, quick_allowed};
use crate::range::first_outside;
use crate::weights::first_over;
use model::{Reason, Refusal, Terms};
use stencil::pixel::Ends;

// A row: refused unless this holds.
#[tactic(auto, unfolding(model::specs::Verdict::first_refusal))]
pub fn require(holds: bool, reason: Reason, place: usize) -> Result<(), Refusal>
    ensures { verdict_of result ≡ first_refusal (row (not holds) (number_of reason) place ∷ []) }
{
    if holds {
        Ok(())
    } else {
        Err(Refusal { reason, place })
    }
}

// The row of a search among `count`: refused at what it found.
#[tactic(auto, unfolding(model::specs::Verdict::first_refusal))]
fn require_none(found: Option<usize>, reason: Reason) -> Result<(), Refusal>
    ensures { (count index : _) → found ≡ below count index → verdict_of result ≡ first_refusal (row (ltb index count) (number_of reason) index ∷ []) }
{
    match found {
        None => Ok(()),
        Some(place) => Err(Refusal { reason, place }),
    }
}

// 4, 5, 19, 6: the lengths of samples, flow, weights and image that check and run are lent.
#[tactic(auto, unfolding(model::specs::Verdict::first_refusal))]
pub fn judge_lengths(
    t: Terms,
    samples: usize,
    weights: usize,
    flow: usize,
    image: usize,
) -> Result<(), Refusal>
    requires { size_allowed t.width t.height ≡ true }
    ensures { verdict_of result ≡ first_refusal (length_rows (pixels_of t) (pairs_of t) samples weights flow image) }
{
    let n = pixels(t.width, t.height);
    let m = pairs(t.width, t.height);
    require(samples == n, Reason::SampleCount, 0)?;
    require(flow == m, Reason::FlowCount, 0)?;
    require(all_or_none(weights, m), Reason::WeightCount, 0)?;
    require(image == n, Reason::ImageCount, 0)
}

// 4, 19, 6: those of a price.
#[tactic(auto, unfolding(model::specs::Verdict::first_refusal))]
pub fn judge_price_lengths(
    t: Terms,
    samples: usize,
    weights: usize,
    image: usize,
) -> Result<(), Refusal>
    requires { size_allowed t.width t.height ≡ true }
    ensures { verdict_of result ≡ first_refusal (price_length_rows (pixels_of t) (pairs_of t) samples weights image) }
{
    let n = pixels(t.width, t.height);
    require(samples == n, Reason::SampleCount, 0)?;
    require(
        all_or_none(weights, pairs(t.width, t.height)),
        Reason::WeightCount,
        0,
    )?;
    require(image == n, Reason::ImageCount, 0)
}

// 4, 5, 19: those of a job to be written, whose flow need not be lent.
#[tactic(auto, unfolding(model::specs::Verdict::first_refusal))]
pub fn judge_write_lengths(
    t: Terms,
    samples: usize,
    weights: usize,
    flow: usize,
) -> Result<(), Refusal>
    requires { size_allowed t.width t.height ≡ true }
    ensures { verdict_of result ≡ first_refusal (write_length_rows (pixels_of t) (pairs_of t) samples weights flow) }
{
    let m = pairs(t.width, t.height);
    require(samples == pixels(t.width, t.height), Reason::SampleCount, 0)?;
    require(all_or_none(flow, m), Reason::FlowCount, 0)?;
    require(all_or_none(weights, m), Reason::WeightCount, 0)
}

// 2: a pair weight that is not allowed, at the first index.
pub fn judge_weights(weights: &[i32]) -> Result<(), Refusal>
    ensures { verdict_of result ≡ first_refusal (pair_weights_row weights.now ∷ []) }
{
    require_none(first_over(weights), Reason::Weight)
}

// 8: a flow number beyond ± its pair's weight, at the first index.
pub fn judge_flow(t: Terms, weights: &[i32], flow: &[i32]) -> Result<(), Refusal>
    requires { 0 < length weights.now → length flow.now ≤ length weights.now }
    ensures { verdict_of result ≡ first_refusal (flow_row (weight_of t weights.now) flow.now ∷ []) }
{
    require_none(first_beyond(t, weights, flow), Reason::BeyondWeight)
}

// 9: an image value outside a range, which is the box for a price, at the first index.
pub fn judge_image(image: &[i32], ends: Ends) -> Result<(), Refusal>
    ensures { verdict_of result ≡ first_refusal (outside_row ends.low ends.high image.now ∷ []) }
{
    require_none(first_outside(image, ends), Reason::OutsideBox)
}

// 10: quick rounds over 4,096.
pub fn judge_rounds(quick: u32) -> Result<(), Refusal>
    ensures { verdict_of result ≡ first_refusal (row (ltb 4096 quick) 10 0 ∷ []) }
{
    require(quick_allowed(quick), Reason::QuickRounds, 0)
}
