// Write: the job is judged before anything is written.

ghost use Rattle.std.specs.Prelude.{◌≡◌, ◌↔◌, take};
ghost use Rattle.model.specs.Tape.{write_answer, write_output};
ghost use Rattle.model.specs.Accepted.{WriteAllowed};
ghost use Rattle.model.specs.RoundTrip.{ReadsBack};
ghost use Rattle.model.specs.Answers.{write_answer_of};

use crate::put::put_tape;
use model::{Refusal, Rounds, Terms};
use validation::judge_write;

// A job is written to the front of the output. A refused one leaves it as it was.
pub fn write(
    t: Terms,
    r: Rounds,
    samples: &[u8],
    weights: &[i32],
    flow: &[i32],
    output: &mut [u8],
) -> Result<usize, Refusal>
    ensures result_value { write_answer_of result ≡ write_answer t r samples.now weights.now flow.now output.old }
    ensures output_after { output.new ≡ write_output t r samples.now weights.now flow.now output.old }
    ensures accepted { ((write_answer_of result).number ≡ 0) ↔ WriteAllowed t r samples.now weights.now flow.now output.old }
    ensures reads_back { (write_answer_of result).number ≡ 0 → ReadsBack t r samples.now weights.now flow.now (take (write_answer_of result).count output.new) }
{
    // Not by `?`, behind which a must-fail edit of what a refusal is told as would be refused for its form.
    match judge_write(t, r.quick, samples.len(), weights, flow, output.len()) {
        Err(refusal) => Err(refusal),
        Ok(()) => Ok(put_tape(t, r, samples, weights, flow, output)),
    }
}
