// Check judges a flow and fills its image.

ghost use Rattle.std.specs.Prelude.{◌≡◌, ◌↔◌};
ghost use Rattle.model.specs.Calls.{check_answer, check_image};
ghost use Rattle.model.specs.Accepted.{CheckAllowed};
ghost use Rattle.model.specs.Demand.{CheckDemand};
ghost use Rattle.model.specs.Plain.{terms_of, answer_from, AnswerNumbers};

use crate::numbers::Numbers;
use calls::check::check;
use model::Terms;

#[unsafe(no_mangle)]
pub extern "C" fn relief_call_check(
    width: u32,
    height: u32,
    weight: u32,
    low: u8,
    high: u8,
    samples: &[u8],
    weights: &[i32],
    flow: &[i32],
    image: &mut [i32],
    place: &mut u64,
    outcome: &mut u32,
    moved: &mut u32,
    price: &mut u64,
    floor: &mut i64,
    slack: &mut u64,
) -> u32
    ensures answer_numbers { AnswerNumbers result place.new outcome.new moved.new price.new floor.new slack.new (check_answer (terms_of width height weight low high) samples.now weights.now flow.now image.old) }
    ensures image_after { image.new ≡ check_image (terms_of width height weight low high) samples.now weights.now flow.now image.old }
    ensures accepted { (result ≡ 0) ↔ CheckAllowed (terms_of width height weight low high) samples.now weights.now flow.now image.old }
    ensures check_demand { result ≡ 0 → CheckDemand (terms_of width height weight low high) samples.now weights.now flow.now image.new (answer_from result place.new outcome.new moved.new price.new floor.new slack.new) }
{
    let t = Terms {
        width,
        height,
        weight,
        low,
        high,
    };
    let n = Numbers::of(check(t, samples, weights, flow, image));
    *place = n.place;
    *outcome = n.outcome;
    *moved = n.moved;
    *price = n.price;
    *floor = n.floor;
    *slack = n.slack;
    n.number
}
