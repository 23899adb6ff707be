// Run does a job's rounds and fills its flow and image.

ghost use Rattle.std.specs.Prelude.{◌≡◌, ◌↔◌};
ghost use Rattle.model.specs.Calls.{run_answer, run_flow, run_image, run_work};
ghost use Rattle.model.specs.Accepted.{RunAllowed};
ghost use Rattle.model.specs.Demand.{RunDemand};
ghost use Rattle.model.specs.Plain.{terms_of, rounds_of, answer_from, AnswerNumbers};

use crate::numbers::Numbers;
use calls::run::run;
use model::{Rounds, Terms};

#[unsafe(no_mangle)]
pub extern "C" fn relief_call_run(
    width: u32,
    height: u32,
    weight: u32,
    low: u8,
    high: u8,
    quick: u32,
    allowance: u16,
    samples: &[u8],
    weights: &[i32],
    flow: &mut [i32],
    image: &mut [i32],
    work: &mut [i32],
    place: &mut u64,
    outcome: &mut u32,
    moved: &mut u32,
    price: &mut u64,
    floor: &mut i64,
    slack: &mut u64,
) -> u32
    ensures answer_numbers { AnswerNumbers result place.new outcome.new moved.new price.new floor.new slack.new (run_answer (terms_of width height weight low high) (rounds_of quick allowance) samples.now weights.now flow.old image.old work.old) }
    ensures flow_after { flow.new ≡ run_flow (terms_of width height weight low high) (rounds_of quick allowance) samples.now weights.now flow.old image.old work.old }
    ensures image_after { image.new ≡ run_image (terms_of width height weight low high) (rounds_of quick allowance) samples.now weights.now flow.old image.old work.old }
    ensures work_after { work.new ≡ run_work (terms_of width height weight low high) (rounds_of quick allowance) samples.now weights.now flow.old image.old work.old }
    ensures accepted { (result ≡ 0) ↔ RunAllowed (terms_of width height weight low high) (rounds_of quick allowance) samples.now weights.now flow.old image.old work.old }
    ensures run_demand { result ≡ 0 → RunDemand (terms_of width height weight low high) (rounds_of quick allowance) samples.now weights.now flow.new image.new (answer_from result place.new outcome.new moved.new price.new floor.new slack.new) }
{
    let t = Terms {
        width,
        height,
        weight,
        low,
        high,
    };
    let r = Rounds { quick, allowance };
    let n = Numbers::of(run(t, r, samples, weights, flow, image, work));
    *place = n.place;
    *outcome = n.outcome;
    *moved = n.moved;
    *price = n.price;
    *floor = n.floor;
    *slack = n.slack;
    n.number
}
