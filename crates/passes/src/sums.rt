// Sums over all pairs of a raster.

ghost use Rattle.std.specs.Prelude.{◌≡◌, pos, length, ◌≤ℤ◌};
ghost use Rattle.integers.specs.Sum.{total};
ghost use Rattle.lists.specs.Lists.{at};
ghost use Rattle.layout.specs.Runs.{pair_list};
ghost use Rattle.passes.specs.Limits.{WeightLimits, ValueLimits, RunLimits, RasterLimits, FlowLimits};
ghost use Rattle.passes.specs.Pairs.{weight_at, variation_at, product_at, first_value, second_value};

use crate::part::{Values, Weights, part_of};
use layout::Shape;
use stencil::pair;

// The sum of a run's weights times the sizes of the falls.
fn variation_run(values: Values, weights: Weights) -> u64
    requires { ValueLimits values.first.now values.second.now × WeightLimits (length values.first.now) weights.all weights.own.now × (pos 0 ≤ℤ weights.all) }
    ensures { pos result ≡ total (length values.entry.first.now) (variation_at (weight_at weights.entry.all weights.entry.own.now) (at values.entry.first.now) (at values.entry.second.now)) }
{
    let mut sum = 0;
    for j in 0..values.first.len() {
        let own = weights.at(j);
        sum += pair::variation(own, values.first[j], values.second[j]);
    }
    sum
}

// The sum of all pairs' weights times the sizes of their falls; without weights, each counts once.
pub fn total_variation(image: &[i32], s: Shape, weights: &[i32]) -> u64
    requires { RasterLimits s image.now × WeightLimits (length (pair_list s)) (pos 1) weights.now }
    ensures { pos result ≡ total (length (pair_list s)) (variation_at (weight_at (pos 1) weights.now) (first_value s image.now) (second_value s image.now)) }
{
    let each = Weights {
        all: 1,
        own: weights,
    };
    let mut sum = 0;
    for k in 0..s.run_count() {
        let r = s.run(k);
        let values = Values::of_run(image, r);
        let own = each.of_run(r);
        sum += variation_run(values, own);
    }
    sum
}

// The sum of a run's numbers times their falls.
fn product_run(flow: &[i32], values: Values) -> i64
    requires { RunLimits flow.now values.first.now values.second.now }
    ensures { result ≡ total (length flow.now) (product_at (at flow.now) (at values.entry.first.now) (at values.entry.second.now)) }
{
    let mut sum = 0;
    for j in 0..flow.len() {
        sum += pair::product(flow[j], values.first[j], values.second[j]);
    }
    sum
}

// The inner product of a flow and the falls of an image: the sum of all pairs' numbers times their
// falls.
pub fn total_product(flow: &[i32], image: &[i32], s: Shape) -> i64
    requires { FlowLimits s flow.now image.now }
    ensures { result ≡ total (length flow.now) (product_at (at flow.now) (first_value s image.now) (second_value s image.now)) }
{
    let mut sum = 0;
    for k in 0..s.run_count() {
        let r = s.run(k);
        let numbers = part_of(flow, r.pair, r.count);
        let values = Values::of_run(image, r);
        sum += product_run(numbers, values);
    }
    sum
}
