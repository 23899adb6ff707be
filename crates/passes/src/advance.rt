// The pass of a quick round: from the image of the extrapolated flow R, the next iterate P and the
// next R, which lies ahead of it.

ghost use Rattle.std.specs.Prelude.{◌≡◌, length};
ghost use Rattle.lists.specs.Lists.{at, table};
ghost use Rattle.model.specs.Rounds.{eighth};
ghost use Rattle.layout.specs.Runs.{pair_list};
ghost use Rattle.passes.specs.Limits.{WeightLimits, RunLimits, FlowLimits, AheadLimits};
ghost use Rattle.passes.specs.Pairs.{weight_at, step_at, ahead_at, first_value, second_value};

use crate::part::{Values, Weights};
use layout::Shape;
use stencil::pair;
use stencil::rounding::Quick;

// One run of pairs, with the values of their pixels: flow holds the earlier iterate and gets the next
// one, ahead holds R and gets the next R.
fn advance_run(flow: &mut [i32], ahead: &mut [i32], values: Values, weights: Weights, m: u64)
    requires { RunLimits ahead.old values.first.now values.second.now × WeightLimits (length ahead.old) weights.all weights.own.now × AheadLimits flow.old ahead.old weights.all weights.own.now m }
    ensures flow_after { flow.new ≡ table (length flow.old) (step_at eighth (weight_at weights.entry.all weights.entry.own.now) (at ahead.old) (at values.entry.first.now) (at values.entry.second.now)) }
    ensures ahead_after { ahead.new ≡ table (length flow.old) (ahead_at eighth (weight_at weights.entry.all weights.entry.own.now) m (at flow.old) (at ahead.old) (at values.entry.first.now) (at values.entry.second.now)) }
{
    for j in 0..flow.len() {
        let own = weights.at(j);
        let next = pair::step_value::<Quick>(ahead[j], values.first[j], values.second[j], own);
        ahead[j] = momentum::extrapolated(flow[j], next, m);
        flow[j] = next;
    }
}

// All pairs of a raster, from the image of the numbers ahead.
pub fn advance_pairs(
    flow: &mut [i32],
    ahead: &mut [i32],
    image: &[i32],
    s: Shape,
    weights: Weights,
    m: u64,
)
    requires { FlowLimits s ahead.old image.now × WeightLimits (length (pair_list s)) weights.all weights.own.now × AheadLimits flow.old ahead.old weights.all weights.own.now m }
    ensures flow_after { flow.new ≡ table (length flow.old) (step_at eighth (weight_at weights.entry.all weights.entry.own.now) (at ahead.old) (first_value s image.now) (second_value s image.now)) }
    ensures ahead_after { ahead.new ≡ table (length flow.old) (ahead_at eighth (weight_at weights.entry.all weights.entry.own.now) m (at flow.old) (at ahead.old) (first_value s image.now) (second_value s image.now)) }
{
    for k in 0..s.run_count() {
        let r = s.run(k);
        let values = Values::of_run(image, r);
        let own = weights.of_run(r);
        let start = r.pair;
        let end = start + r.count;
        advance_run(
            &mut flow[start..end],
            &mut ahead[start..end],
            values,
            own,
            m,
        );
    }
}
