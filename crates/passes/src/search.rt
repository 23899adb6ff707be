// The test before a steady round: the first pair that its step would change.

ghost use Rattle.std.specs.Prelude.{◌≡◌, length};
ghost use Rattle.lists.specs.Lists.{at, first_where, below};
ghost use Rattle.model.specs.Rounds.{nearest_eighth};
ghost use Rattle.layout.specs.Runs.{pair_list};
ghost use Rattle.passes.specs.Limits.{WeightLimits, RunLimits, FlowLimits};
ghost use Rattle.passes.specs.Pairs.{weight_at, moves_at, first_value, second_value};

use crate::part::{Values, Weights, part_of};
use layout::Shape;
use stencil::pair;
use stencil::rounding::Steady;

// Among one run of pairs, with the values of their pixels.
fn search_run(flow: &[i32], values: Values, weights: Weights) -> Option<usize>
    requires { RunLimits flow.now values.first.now values.second.now × WeightLimits (length flow.now) weights.all weights.own.now }
    ensures { result ≡ below (length flow.now) (first_where (length flow.now) (moves_at nearest_eighth (weight_at weights.entry.all weights.entry.own.now) (at flow.now) (at values.entry.first.now) (at values.entry.second.now))) }
{
    // A rule of the project: the search yields by `break` the first pair that moves, or none. A `for`
    // yields nothing.
    let mut j = 0;
    loop {
        if flow.len() <= j {
            break None;
        }
        let own = weights.at(j);
        if pair::would_move::<Steady>(flow[j], values.first[j], values.second[j], own) {
            break Some(j);
        }
        j += 1;
    }
}

// Among all pairs of a raster, on the flow whose image is lent.
pub fn first_moving(flow: &[i32], image: &[i32], s: Shape, weights: Weights) -> Option<usize>
    requires { FlowLimits s flow.now image.now × WeightLimits (length (pair_list s)) weights.all weights.own.now }
    ensures { result ≡ below (length flow.now) (first_where (length flow.now) (moves_at nearest_eighth (weight_at weights.entry.all weights.entry.own.now) (at flow.now) (first_value s image.now) (second_value s image.now))) }
{
    for k in 0..s.run_count() {
        let r = s.run(k);
        let numbers = part_of(flow, r.pair, r.count);
        let values = Values::of_run(image, r);
        let own = weights.of_run(r);
        if let Some(j) = search_run(numbers, values, own) {
            return Some(r.pair + j);
        }
    }
    None
}
