// Quick rounds: the step on the extrapolated flow R gives the next iterate P, and the next R lies
// ahead of it.

ghost use Rattle.std.specs.Prelude.{◌*◌, ◌≡◌, ◌++◌, length, drop};
ghost use Rattle.model.specs.Rounds.{eighth, quick_round, quick_rounds};
ghost use Rattle.model.specs.Calls.{image_of};
ghost use Rattle.solver.specs.Scan.{problem_of};
ghost use Rattle.solver.specs.Ready.{QuickReady, held, QuickJob};
ghost use Rattle.solver.specs.Left.{quick_work, quick_image};

use crate::scan::Scan;
use image::whole::fill_image;
use layout::Shape;
use passes::advance::advance_pairs;

// One quick round on the flow, which holds P, and the numbers ahead, which are R: from the image of R.
// Gives the next T.
fn advance_round(
    scan: Scan,
    flow: &mut [i32],
    ahead: &mut [i32],
    image: &mut [i32],
    momentum: u64,
) -> u64
    requires { QuickReady scan.terms scan.samples.now scan.weights.own.now flow.old ahead.old image.old momentum }
    ensures flow_after { flow.new ≡ (quick_round eighth (problem_of scan.entry) (held flow.old ahead.old momentum)).iterate }
    ensures ahead_after { ahead.new ≡ (quick_round eighth (problem_of scan.entry) (held flow.old ahead.old momentum)).extrapolated }
    ensures value { result ≡ (quick_round eighth (problem_of scan.entry) (held flow.old ahead.old momentum)).momentum }
    ensures image_after { image.new ≡ image_of scan.entry.terms scan.entry.samples.now ahead.old }
{
    let s = Shape::of(scan.terms);
    fill_image(image, scan.samples, ahead, s, scan.ends);
    let next = momentum::next_momentum(momentum);
    let factor = momentum::reciprocal(momentum - 65536, next);
    advance_pairs(flow, ahead, image, s, scan.weights, factor);
    next
}

// The values of another buffer of the same length. A loop, since std's `copy_from_slice` calls C's `memmove`, which a program
// without a C library would have to bring.
fn copy(target: &mut [i32], source: &[i32])
    requires { length target.old ≡ length source.now }
    ensures { target.new ≡ source.now }
{
    for j in 0..target.len() {
        target[j] = source[j];
    }
}

// The same with the work buffer lent on as two writable parts: its first half keeps the earlier flow,
// its second half, from the pair count on, holds the numbers ahead.
fn quick_round(
    scan: Scan,
    flow: &mut [i32],
    image: &mut [i32],
    work: &mut [i32],
    momentum: u64,
) -> u64
    requires { (length work.old ≡ 2 * length flow.old) × QuickReady scan.terms scan.samples.now scan.weights.own.now flow.old (drop (length flow.old) work.old) image.old momentum }
    ensures flow_after { flow.new ≡ (quick_round eighth (problem_of scan.entry) (held flow.old (drop (length flow.old) work.old) momentum)).iterate }
    ensures work_after { work.new ≡ flow.old ++ (quick_round eighth (problem_of scan.entry) (held flow.old (drop (length flow.old) work.old) momentum)).extrapolated }
    ensures value { result ≡ (quick_round eighth (problem_of scan.entry) (held flow.old (drop (length flow.old) work.old) momentum)).momentum }
    ensures image_after { image.new ≡ image_of scan.entry.terms scan.entry.samples.now (drop (length flow.old) work.old) }
{
    let m = flow.len();
    copy(&mut work[..m], flow);
    advance_round(scan, flow, &mut work[m..], image, momentum)
}

// Quick rounds from the start, P = R = 0 and T = 65,536: the flow gets P, the work buffer the earlier P
// and the R ahead.
pub fn quick_rounds(scan: Scan, quick: u32, flow: &mut [i32], image: &mut [i32], work: &mut [i32])
    requires { QuickJob scan.terms quick scan.samples.now scan.weights.own.now flow.old image.old work.old }
    ensures flow_after { flow.new ≡ (quick_rounds eighth (problem_of scan.entry) quick).iterate }
    ensures image_after { image.new ≡ quick_image scan.entry.terms scan.entry.samples.now scan.entry.weights.own.now quick image.old }
    ensures work_after { work.new ≡ quick_work (problem_of scan.entry) quick }
{
    flow.fill(0);
    work.fill(0);
    let mut momentum = 65536;
    for k in 0..quick {
        momentum = quick_round(scan, flow, image, work, momentum);
    }
}
