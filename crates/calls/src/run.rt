// Run does a job's rounds and fills its flow and image.

ghost use Rattle.std.specs.Prelude.{◌≡◌, cond, ◌↔◌, Ok};
ghost use Rattle.model.specs.Calls as Calls;
ghost use Rattle.model.specs.Calls.{run_answer, run_flow, run_image, run_work};
ghost use Rattle.model.specs.Accepted.{RunAllowed};
ghost use Rattle.model.specs.Demand.{RunDemand};
ghost use Rattle.model.specs.Answers.{accepted, answer_of};

use crate::figures;
use model::{Ending, Figures, Refusal, Rounds, Terms};
use solver::scan::Scan;
use solver::solve::solve;
use solver::steady::Steady;

// How a run ended, from how its rounds did and the figures of the flow that they ended with.
fn ending_of(end: Steady, figures: Figures) -> Ending
    ensures { answer_of (Ok result) ≡ accepted (cond end.settled Calls.settled Calls.spent) end.moved figures }
{
    let moved = end.moved;
    if end.settled {
        Ending::Settled { moved, figures }
    } else {
        Ending::Spent { moved, figures }
    }
}

pub fn run(
    t: Terms,
    r: Rounds,
    samples: &[u8],
    weights: &[i32],
    flow: &mut [i32],
    image: &mut [i32],
    work: &mut [i32],
) -> Result<Ending, Refusal>
    ensures result_value { answer_of result ≡ run_answer t r samples.now weights.now flow.old image.old work.old }
    ensures flow_after { flow.new ≡ run_flow t r samples.now weights.now flow.old image.old work.old }
    ensures image_after { image.new ≡ run_image t r samples.now weights.now flow.old image.old work.old }
    ensures work_after { work.new ≡ run_work t r samples.now weights.now flow.old image.old work.old }
    ensures accepted { ((answer_of result).number ≡ 0) ↔ RunAllowed t r samples.now weights.now flow.old image.old work.old }
    ensures run_demand { (answer_of result).number ≡ 0 → RunDemand t r samples.now weights.now flow.new image.new (answer_of result) }
{
    validation::judge_run(
        t,
        r.quick,
        samples.len(),
        weights,
        flow.len(),
        image.len(),
        work.len(),
    )?;
    let scan = Scan::of(t, samples, weights);
    let end = solve(scan, r, flow, image, work);
    let figures = figures::of_flow(t, samples, weights, flow, image);
    Ok(ending_of(end, figures))
}
