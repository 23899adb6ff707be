// All rounds of a job: the quick ones from the start, then the steady ones on the flow that they leave.

ghost use Rattle.std.specs.Prelude.{◌≡◌, length};
ghost use Rattle.lists.specs.Lists.{zeros};
ghost use Rattle.model.specs.Calls.{image_of, ending};
ghost use Rattle.solver.specs.Ready.{QuickJob};

use crate::quick::quick_rounds;
use crate::scan::Scan;
use crate::steady::{Steady, steady_rounds};
use model::Rounds;

// The flow gets the one that the rounds end with, the image that flow's, and the work buffer is
// cleared.
pub fn solve(scan: Scan, r: Rounds, flow: &mut [i32], image: &mut [i32], work: &mut [i32]) -> Steady
    requires { QuickJob scan.terms r.quick scan.samples.now scan.weights.own.now flow.old image.old work.old }
    ensures flow_after { flow.new ≡ (ending scan.entry.terms r scan.entry.samples.now scan.entry.weights.own.now).flow }
    ensures image_after { image.new ≡ image_of scan.entry.terms scan.entry.samples.now (ending scan.entry.terms r scan.entry.samples.now scan.entry.weights.own.now).flow }
    ensures work_after { work.new ≡ zeros (length work.old) }
    ensures moved_value { result.moved ≡ (ending scan.entry.terms r scan.entry.samples.now scan.entry.weights.own.now).moved }
    ensures settled_value { result.settled ≡ (ending scan.entry.terms r scan.entry.samples.now scan.entry.weights.own.now).settled }
{
    quick_rounds(scan, r.quick, flow, image, work);
    work.fill(0);
    steady_rounds(scan, r.allowance, flow, image)
}
