// Price, floor and slack of a flow and its image, in 64 bits.

ghost use Rattle.std.specs.Prelude.{◌+◌, ◌*◌, ◌^◌, ◌<◌, ◌≤◌, ◌≡◌, pos, nat_abs, ◌+ℤ◌, ◌-ℤ◌, ◌*ℤ◌, ◌≤ℤ◌};
ghost use Rattle.lists.specs.Lists.{at};
ghost use Rattle.model.specs.Problem;
ghost use Rattle.model.specs.Grid.{grid};
ghost use Rattle.calls.specs.Ready.{PriceReady, FlowReady, scale_of};

use layout::Shape;
use model::{Figures, Terms};
use passes::pixels::misfit;
use passes::sums::{total_product, total_variation};

// The objective: the data fidelity term plus twice the weighted total variation, which is the sum over
// pairs times its factor.
fn objective(fidelity: u64, variation: u64, factor: u32) -> u64
    requires { fidelity + 2 * (factor * variation) < 2 ^ 63 }
    ensures { result ≡ fidelity + 2 * (factor * variation) }
{
    fidelity + 2 * (u64::from(factor) * variation)
}

// That factor: the terms' weight, or 1 where the sum has the pairs' own weights.
fn scale(weight: u32, weights: &[i32]) -> u32
    ensures { result ≡ scale_of weight weights.now }
{
    if weights.is_empty() { weight } else { 1 }
}

// The dual objective: the data fidelity term plus twice the sum of flow times fall.
fn dual(fidelity: u64, product: i64) -> i64
    requires { fidelity + 2 * nat_abs product < 2 ^ 63 }
    ensures { result ≡ pos fidelity +ℤ pos 2 *ℤ product }
{
    fidelity as i64 + 2 * product
}

// The duality gap.
fn gap(price: u64, floor: i64) -> u64
    requires { (price + nat_abs floor < 2 ^ 63) × (floor ≤ℤ pos price) }
    ensures { pos result ≡ pos price -ℤ floor }
{
    (price as i64 - floor) as u64
}

// The data fidelity term of an image, and its price, in which it is a summand.
#[derive(Clone, Copy)]
struct Primal {
    fidelity: u64,
    price: u64,
}

// Both of an image of the box.
fn primal_of(t: Terms, samples: &[u8], weights: &[i32], image: &[i32]) -> Primal
    requires { PriceReady t samples.now weights.now image.now }
    ensures fidelity_value { pos result.fidelity ≡ Problem.misfit (grid t samples.now weights.now) (at image.now) }
    ensures fidelity_most { result.fidelity ≤ result.price }
    ensures price_value { pos result.price ≡ Problem.price (grid t samples.now weights.now) (at image.now) }
{
    let s = Shape::of(t);
    let fidelity = misfit(image, samples);
    let variation = total_variation(image, s, weights);
    Primal {
        fidelity,
        price: objective(fidelity, variation, scale(t.weight, weights)),
    }
}

// The price of an image of the box.
pub fn image_price(t: Terms, samples: &[u8], weights: &[i32], image: &[i32]) -> u64
    requires { PriceReady t samples.now weights.now image.now }
    ensures { pos result ≡ Problem.price (grid t samples.now weights.now) (at image.now) }
{
    primal_of(t, samples, weights, image).price
}

// The figures of a flow whose image is at hand.
pub fn of_flow(t: Terms, samples: &[u8], weights: &[i32], flow: &[i32], image: &[i32]) -> Figures
    requires { FlowReady t samples.now weights.now flow.now image.now }
    ensures price_value { pos result.price ≡ Problem.price (grid t samples.now weights.now) (Problem.image (grid t samples.now weights.now) (at flow.now)) }
    ensures floor_value { result.floor ≡ Problem.floor (grid t samples.now weights.now) (at flow.now) }
    ensures slack_value { pos result.slack ≡ Problem.slack (grid t samples.now weights.now) (at flow.now) }
{
    let s = Shape::of(t);
    let Primal { fidelity, price } = primal_of(t, samples, weights, image);
    let floor = dual(fidelity, total_product(flow, image, s));
    Figures {
        price,
        floor,
        slack: gap(price, floor),
    }
}
