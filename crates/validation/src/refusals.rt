// Where each call turns back: the rows of document 01's table, from the top. Each takes what its call is lent, in the
// call's order; a struct of it would be made for one call.

ghost use Rattle.std.specs.Prelude.{◌+◌, ◌*◌, ◌≡◌, [], ◌∷◌, ltb, length};
ghost use Rattle.model.specs.Verdict.{row, first_refusal, verdict_of};
ghost use Rattle.model.specs.Grid.{weight_of};
ghost use Rattle.model.specs.Calls.{exact_row, pixels_of, pairs_of, size_row, weight_row, box_row, length_row, optional_row, pair_weights_row, flow_row};
ghost use Rattle.validation.specs.Outside.{outside_row};

use crate::rows::{
    judge_flow, judge_image, judge_lengths, judge_price_lengths, judge_rounds, judge_weights,
    judge_write_lengths, require,
};
use crate::terms::judge_terms;
use model::{Reason, Refusal, Terms};
use stencil::pixel::Ends;

// Check: 1, 2, 3; 4, 5, 19, 6; 2, 8. Of the image only its length counts, and weights and flow are
// read only where terms and lengths have passed.
#[tactic(auto, unfolding(model::specs::Verdict::first_refusal))]
pub fn judge_check(
    t: Terms,
    samples: usize,
    weights: &[i32],
    flow: &[i32],
    image: usize,
) -> Result<(), Refusal>
    ensures { verdict_of result ≡ first_refusal (size_row t 0 ∷ weight_row t.weight 0 ∷ box_row t 0 ∷ exact_row 4 samples (pixels_of t) ∷ length_row 5 flow.now (pairs_of t) ∷ optional_row 19 weights.now (pairs_of t) ∷ exact_row 6 image (pixels_of t) ∷ pair_weights_row weights.now ∷ flow_row (weight_of t weights.now) flow.now ∷ []) }
{
    judge_terms(t)?;
    judge_lengths(t, samples, weights.len(), flow.len(), image)?;
    judge_weights(weights)?;
    judge_flow(t, weights, flow)
}

// Price: 1, 2, 3; 4, 19, 6; 2, 9, by the ends that it is handed. Weights and image are read only
// where terms and lengths have passed.
pub fn judge_price(
    t: Terms,
    ends: Ends,
    samples: usize,
    weights: &[i32],
    image: &[i32],
) -> Result<(), Refusal>
    ensures { verdict_of result ≡ first_refusal (size_row t 0 ∷ weight_row t.weight 0 ∷ box_row t 0 ∷ exact_row 4 samples (pixels_of t) ∷ optional_row 19 weights.now (pairs_of t) ∷ length_row 6 image.now (pixels_of t) ∷ pair_weights_row weights.now ∷ outside_row ends.low ends.high image.now ∷ []) }
{
    judge_terms(t)?;
    judge_price_lengths(t, samples, weights.len(), image.len())?;
    judge_weights(weights)?;
    judge_image(image, ends)
}

// Run: 1, 2, 3; 10; 4, 5, 19, 6, 7; 2. Of the other buffers only the lengths count, and the weights
// are read only where terms, rounds and lengths have passed.
pub fn judge_run(
    t: Terms,
    quick: u32,
    samples: usize,
    weights: &[i32],
    flow: usize,
    image: usize,
    work: usize,
) -> Result<(), Refusal>
    ensures { verdict_of result ≡ first_refusal (size_row t 0 ∷ weight_row t.weight 0 ∷ box_row t 0 ∷ row (ltb 4096 quick) 10 0 ∷ exact_row 4 samples (pixels_of t) ∷ exact_row 5 flow (pairs_of t) ∷ optional_row 19 weights.now (pairs_of t) ∷ exact_row 6 image (pixels_of t) ∷ exact_row 7 work (2 * pairs_of t) ∷ pair_weights_row weights.now ∷ []) }
{
    judge_terms(t)?;
    judge_rounds(quick)?;
    judge_lengths(t, samples, weights.len(), flow, image)?;
    require(work == 2 * flow, Reason::WorkCount, 0)?;
    judge_weights(weights)
}

// Write: 1, 2, 3; 10; 4, 5, 19, 16; 2, 8. Of the samples and the output only the lengths count. How
// long the tape will be is counted where the lengths above 16 have passed, and weights and flow are
// read where 16 has, too.
#[tactic(auto, unfolding(model::specs::Verdict::first_refusal))]
pub fn judge_write(
    t: Terms,
    quick: u32,
    samples: usize,
    weights: &[i32],
    flow: &[i32],
    room: usize,
) -> Result<(), Refusal>
    ensures { verdict_of result ≡ first_refusal (size_row t 0 ∷ weight_row t.weight 0 ∷ box_row t 0 ∷ row (ltb 4096 quick) 10 0 ∷ exact_row 4 samples (pixels_of t) ∷ optional_row 5 flow.now (pairs_of t) ∷ optional_row 19 weights.now (pairs_of t) ∷ row (ltb room (16 + 2 * samples + 3 * length weights.now + 5 * length flow.now)) 16 0 ∷ pair_weights_row weights.now ∷ flow_row (weight_of t weights.now) flow.now ∷ []) }
{
    judge_terms(t)?;
    judge_rounds(quick)?;
    judge_write_lengths(t, samples, weights.len(), flow.len())?;
    let size = 16 + 2 * samples + 3 * weights.len() + 5 * flow.len();
    require(size <= room, Reason::ShortBuffer, 0)?;
    judge_weights(weights)?;
    judge_flow(t, weights, flow)
}
