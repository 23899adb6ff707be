// The answer to what was read of a tape.

ghost use Rattle.std.specs.Prelude.{◌≡◌, ◌*◌, ◌≤◌, nat_abs, length};
ghost use Rattle.model.specs.Calls.{pixels_of};
ghost use Rattle.model.specs.Answers.{answer_of, read_answer_of};
ghost use Rattle.calls.specs.Slack.{most_slack};
ghost use Rattle.job.specs.Tables.{SizeAllowed, TablesFor, answer_for, image_for};

use crate::call::check_or_run;
use model::{Ending, Job, Refusal, Terms};

// The terms of the job; zeros for a refusal.
pub fn terms_of(read: Result<Job, Refusal>) -> Terms
    ensures { result ≡ (read_answer_of read).terms }
{
    read.map_or(Terms::default(), |job| job.terms)
}

// How many pixels it has; none for a refusal.
pub fn pixels_of(read: Result<Job, Refusal>) -> usize
    requires { SizeAllowed read }
    ensures { result ≡ pixels_of (read_answer_of read).terms }
{
    match read {
        Ok(job) => validation::pixels(job.terms.width, job.terms.height),
        Err(_) => 0,
    }
}

// A refusal, or the answer of the job's call.
pub fn answer_of(
    read: Result<Job, Refusal>,
    samples: &[u8],
    weights: &[i32],
    flow: &mut [i32],
    image: &mut [i32],
    work: &mut [i32],
) -> Result<Ending, Refusal>
    requires { TablesFor read (length samples.now) (length weights.now) (length flow.old) (length image.old) (length work.old) }
    ensures result_value { answer_of result ≡ answer_for read samples.now weights.now flow.old image.old work.old }
    ensures image_after { image.new ≡ image_for read samples.now weights.now flow.old image.old work.old }
    ensures result_bound { nat_abs (answer_of result).slack ≤ most_slack * pixels_of (read_answer_of read).terms }
{
    let job = read?;
    check_or_run(job, samples, weights, flow, image, work)
}
