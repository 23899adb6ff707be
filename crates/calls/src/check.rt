// Check judges a flow and fills its image.

ghost use Rattle.std.specs.Prelude.{◌≡◌, ◌↔◌};
ghost use Rattle.model.specs.Calls.{check_answer, check_image};
ghost use Rattle.model.specs.Accepted.{CheckAllowed};
ghost use Rattle.model.specs.Demand.{CheckDemand};
ghost use Rattle.model.specs.Answers.{answer_of};

use crate::figures;
use image::whole::fill_image;
use layout::Shape;
use model::{Ending, Refusal, Terms};
use stencil::pixel::Ends;

pub fn check(
    t: Terms,
    samples: &[u8],
    weights: &[i32],
    flow: &[i32],
    image: &mut [i32],
) -> Result<Ending, Refusal>
    ensures result_value { answer_of result ≡ check_answer t samples.now weights.now flow.now image.old }
    ensures image_after { image.new ≡ check_image t samples.now weights.now flow.now image.old }
    ensures accepted { ((answer_of result).number ≡ 0) ↔ CheckAllowed t samples.now weights.now flow.now image.old }
    ensures check_demand { (answer_of result).number ≡ 0 → CheckDemand t samples.now weights.now flow.now image.new (answer_of result) }
{
    validation::judge_check(t, samples.len(), weights, flow, image.len())?;
    let s = Shape::of(t);
    let ends = Ends::of(t);
    fill_image(image, samples, flow, s, ends);
    let figures = figures::of_flow(t, samples, weights, flow, image);
    Ok(Ending::Checked { figures })
}
