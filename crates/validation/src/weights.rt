// The weights of pairs: each its own, where weights are lent, else the terms' weight.

ghost use Rattle.std.specs.Prelude.{◌≡◌, not, ◌<◌, length};
ghost use Rattle.lists.specs.Lists.{at, below};
ghost use Rattle.model.specs.Grid.{pair_weight_allowed, weight_of};
ghost use Rattle.model.specs.Calls.{first_over};

use crate::limits::weight_allowed;
use crate::search::first_index;
use model::Terms;

// The weight of pair j.
#[tactic(auto, unfolding(model::specs::Grid::weight_of))]
pub fn pair_weight(t: Terms, weights: &[i32], j: usize) -> u32
    requires { 0 < length weights.now → j < length weights.now }
    ensures { result ≡ weight_of t weights.now j }
{
    if weights.is_empty() {
        t.weight
    } else {
        weights[j].unsigned_abs()
    }
}

// Whether a number of a weight buffer is 0 to the limit.
#[tactic(auto, unfolding(model::specs::Grid::pair_weight_allowed))]
fn pair_weight_allowed(z: i32) -> bool
    ensures { result ≡ pair_weight_allowed z }
{
    0 <= z && weight_allowed(z.unsigned_abs())
}

// The first index whose number is no allowed weight.
pub fn first_over(weights: &[i32]) -> Option<usize>
    ensures { result ≡ below (length weights.now) (first_over weights.now) }
{
    first_index(weights.len(), |j| !pair_weight_allowed(weights[j]))
}
