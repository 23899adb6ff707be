// The rows of document 01's table that judge the terms, which check, price, run and write begin with.

ghost use Rattle.std.specs.Prelude.{◌≡◌, [], ◌∷◌};
ghost use Rattle.model.specs.Verdict.{first_refusal, verdict_of};
ghost use Rattle.model.specs.Calls.{size_row, weight_row, box_row};

use crate::limits::{box_allowed, size_allowed, weight_allowed};
use crate::rows::require;
use model::{Reason, Refusal, Terms};

// 1 size; 2 weight; 3 low above high.
#[tactic(auto, unfolding(model::specs::Verdict::first_refusal))]
pub fn judge_terms(t: Terms) -> Result<(), Refusal>
    ensures { verdict_of result ≡ first_refusal (size_row t 0 ∷ weight_row t.weight 0 ∷ box_row t 0 ∷ []) }
{
    require(size_allowed(t.width, t.height), Reason::Size, 0)?;
    require(weight_allowed(t.weight), Reason::Weight, 0)?;
    require(box_allowed(t.low, t.high), Reason::Levels, 0)
}
