// Steady rounds: a step on the flow while some pair would move and the allowance lasts.

ghost use Rattle.std.specs.Prelude.{◌≡◌, ltb};
ghost use Rattle.lists.specs.Lists.{at};
ghost use Rattle.model.specs.Problem.{pair_count};
ghost use Rattle.model.specs.Rounds.{nearest_eighth, first_moving, steady_rounds};
ghost use Rattle.model.specs.Calls.{image_of};
ghost use Rattle.solver.specs.Scan.{problem_of};
ghost use Rattle.solver.specs.Ready.{SteadyReady};

use crate::scan::Scan;
use image::whole::fill_image;
use layout::Shape;
use passes::search::first_moving;
use passes::step::step_pairs;

// How steady rounds end: how many there were, and whether no pair would move. Neither decides whether there is the other,
// so that this is no result, and no option.
#[derive(Clone, Copy, Debug, PartialEq, Eq)]
pub struct Steady {
    pub moved: u32,
    pub settled: bool,
}

// The test before a round, on the image of the flow: whether some pair would move.
fn some_moves(scan: Scan, flow: &[i32], image: &mut [i32]) -> bool
    requires { SteadyReady scan.terms scan.samples.now scan.weights.own.now flow.now image.old }
    ensures image_after { image.new ≡ image_of scan.entry.terms scan.entry.samples.now flow.now }
    ensures value { result ≡ ltb (first_moving nearest_eighth (problem_of scan.entry) (at flow.now)) (pair_count (problem_of scan.entry)) }
{
    let s = Shape::of(scan.terms);
    fill_image(image, scan.samples, flow, s, scan.ends);
    first_moving(flow, image, s, scan.weights).is_some()
}

// Steady rounds on the flow, and the image of the flow that they leave.
pub fn steady_rounds(scan: Scan, allowance: u16, flow: &mut [i32], image: &mut [i32]) -> Steady
    requires { SteadyReady scan.terms scan.samples.now scan.weights.own.now flow.old image.old }
    ensures flow_after { flow.new ≡ (steady_rounds nearest_eighth (problem_of scan.entry) allowance flow.old).flow }
    ensures image_after { image.new ≡ image_of scan.entry.terms scan.entry.samples.now flow.new }
    ensures moved_value { result.moved ≡ (steady_rounds nearest_eighth (problem_of scan.entry) allowance flow.old).moved }
    ensures settled_value { result.settled ≡ (steady_rounds nearest_eighth (problem_of scan.entry) allowance flow.old).settled }
{
    let s = Shape::of(scan.terms);
    let most = u32::from(allowance);
    let mut moved: u32 = 0;
    'rounds: loop {
        let moving = some_moves(scan, flow, image);
        if !moving || most <= moved {
            return Steady {
                moved,
                settled: !moving,
            };
        }
        step_pairs(flow, image, s, scan.weights);
        moved += 1;
    }
}
