// Flow numbers beyond their pair's weight.

ghost use Rattle.std.specs.Prelude.{◌≡◌, ◌≤◌, ◌<◌, ltb, nat_abs, length};
ghost use Rattle.lists.specs.Lists.{at, below};
ghost use Rattle.model.specs.Grid.{weight_of};
ghost use Rattle.model.specs.Calls.{first_beyond};

use crate::search::first_index;
use crate::weights::pair_weight;
use model::Terms;

pub fn is_beyond(value: i32, weight: u32) -> bool
    ensures { result ≡ ltb weight (nat_abs value) }
{
    weight < value.unsigned_abs()
}

// The first index whose number is beyond ± its pair's weight.
pub fn first_beyond(t: Terms, weights: &[i32], flow: &[i32]) -> Option<usize>
    requires { 0 < length weights.now → length flow.now ≤ length weights.now }
    ensures { result ≡ below (length flow.now) (first_beyond (weight_of t weights.now) flow.now) }
{
    first_index(
        flow.len(),
        |i| is_beyond(flow[i], pair_weight(t, weights, i)),
    )
}
