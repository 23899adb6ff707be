// The step of a steady round: each pair's number becomes its stepped value.

ghost use Rattle.std.specs.Prelude.{◌≡◌, length};
ghost use Rattle.lists.specs.Lists.{at, table};
ghost use Rattle.model.specs.Rounds.{nearest_eighth};
ghost use Rattle.layout.specs.Runs.{pair_list};
ghost use Rattle.passes.specs.Limits.{WeightLimits, RunLimits, FlowLimits};
ghost use Rattle.passes.specs.Pairs.{weight_at, step_at, first_value, second_value};

use crate::part::{Values, Weights};
use layout::Shape;
use stencil::pair;
use stencil::rounding::Steady;

// One run of pairs, with the values of their pixels.
fn step_run(flow: &mut [i32], values: Values, weights: Weights)
    requires { RunLimits flow.old values.first.now values.second.now × WeightLimits (length flow.old) weights.all weights.own.now }
    ensures { flow.new ≡ table (length flow.old) (step_at nearest_eighth (weight_at weights.entry.all weights.entry.own.now) (at flow.old) (at values.entry.first.now) (at values.entry.second.now)) }
{
    for j in 0..flow.len() {
        let own = weights.at(j);
        flow[j] = pair::step_value::<Steady>(flow[j], values.first[j], values.second[j], own);
    }
}

// All pairs of a raster, on the flow whose image is lent.
pub fn step_pairs(flow: &mut [i32], image: &[i32], s: Shape, weights: Weights)
    requires { FlowLimits s flow.old image.now × WeightLimits (length (pair_list s)) weights.all weights.own.now }
    ensures { flow.new ≡ table (length flow.old) (step_at nearest_eighth (weight_at weights.entry.all weights.entry.own.now) (at flow.old) (first_value s image.now) (second_value s image.now)) }
{
    for k in 0..s.run_count() {
        let r = s.run(k);
        let values = Values::of_run(image, r);
        let own = weights.of_run(r);
        step_run(&mut flow[r.pair..r.pair + r.count], values, own);
    }
}
