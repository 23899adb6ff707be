// Write makes the tape of a job.

ghost use Rattle.std.specs.Prelude.{◌≡◌, ◌↔◌, take};
ghost use Rattle.model.specs.Tape.{write_answer, write_output};
ghost use Rattle.model.specs.Accepted.{WriteAllowed};
ghost use Rattle.model.specs.RoundTrip.{ReadsBack};
ghost use Rattle.model.specs.Answers.{write_answer_of};
ghost use Rattle.model.specs.Plain.{terms_of, rounds_of, WriteNumbers};

use model::{Refusal, Rounds, Terms};
use tape_writer::write::write;

// What write gives as plain numbers, which C takes: a byte count, or zero beside a refusal.
#[derive(Clone, Copy, Debug, Default, PartialEq, Eq)]
pub struct WrittenNumbers {
    pub number: u32,
    pub place: u64,
    pub count: u64,
}

impl WrittenNumbers {
    fn of(written: Result<usize, Refusal>) -> WrittenNumbers
        ensures { WriteNumbers result.number result.place result.count (write_answer_of written) }
    {
        match written {
            Ok(count) => WrittenNumbers {
                number: 0,
                place: 0,
                count: count as u64,
            },
            Err(refusal) => WrittenNumbers {
                number: refusal.reason.number(),
                place: refusal.place as u64,
                count: 0,
            },
        }
    }
}

#[unsafe(no_mangle)]
pub extern "C" fn relief_call_write(
    width: u32,
    height: u32,
    weight: u32,
    low: u8,
    high: u8,
    quick: u32,
    allowance: u16,
    samples: &[u8],
    weights: &[i32],
    flow: &[i32],
    output: &mut [u8],
    place: &mut u64,
    count: &mut u64,
) -> u32
    ensures write_numbers { WriteNumbers result place.new count.new (write_answer (terms_of width height weight low high) (rounds_of quick allowance) samples.now weights.now flow.now output.old) }
    ensures output_after { output.new ≡ write_output (terms_of width height weight low high) (rounds_of quick allowance) samples.now weights.now flow.now output.old }
    ensures accepted { (result ≡ 0) ↔ WriteAllowed (terms_of width height weight low high) (rounds_of quick allowance) samples.now weights.now flow.now output.old }
    ensures reads_back { result ≡ 0 → ReadsBack (terms_of width height weight low high) (rounds_of quick allowance) samples.now weights.now flow.now (take count.new output.new) }
{
    let t = Terms {
        width,
        height,
        weight,
        low,
        high,
    };
    let r = Rounds { quick, allowance };
    let n = WrittenNumbers::of(write(t, r, samples, weights, flow, output));
    *place = n.place;
    *count = n.count;
    n.number
}
