// Read takes a job from a tape.

ghost use Rattle.std.specs.Prelude.{◌≡◌, ◌↔◌, ◌*◌, take};
ghost use Rattle.model.specs.Calls.{pixels_of, pairs_of};
ghost use Rattle.model.specs.Accepted.{ReadAllowed};
ghost use Rattle.model.specs.RoundTrip.{WritesBack};
ghost use Rattle.model.specs.Tape.{read_answer, read_samples, read_weights, read_flow};
ghost use Rattle.model.specs.Answers.{read_answer_of};
ghost use Rattle.model.specs.Plain.{terms_of, rounds_of, JobNumbers};

use model::{Job, Refusal, Rounds, Terms};
use tape_reader::read::read;

// What read gives as plain numbers, which C takes: a job, or zeros beside a refusal.
#[derive(Clone, Copy, Debug, Default, PartialEq, Eq)]
pub struct ReadNumbers {
    pub number: u32,
    pub place: u64,
    pub terms: Terms,
    pub rounds: Rounds,
    pub weighted: u32,
    pub flowed: u32,
}

impl ReadNumbers {
    fn of(read: Result<Job, Refusal>) -> ReadNumbers
        ensures { JobNumbers result.number result.place result.terms result.rounds result.weighted result.flowed (read_answer_of read) }
    {
        match read {
            Ok(job) => ReadNumbers {
                number: 0,
                place: 0,
                terms: job.terms,
                rounds: job.rounds,
                weighted: u32::from(job.weighted),
                flowed: u32::from(job.flowed),
            },
            Err(refusal) => ReadNumbers {
                number: refusal.reason.number(),
                place: refusal.place as u64,
                ..ReadNumbers::default()
            },
        }
    }
}

#[unsafe(no_mangle)]
pub extern "C" fn relief_call_read(
    tape: &[u8],
    samples: &mut [u8],
    weights: &mut [i32],
    flow: &mut [i32],
    place: &mut u64,
    width: &mut u32,
    height: &mut u32,
    weight: &mut u32,
    low: &mut u8,
    high: &mut u8,
    quick: &mut u32,
    allowance: &mut u16,
    weighted: &mut u32,
    flowed: &mut u32,
) -> u32
    ensures job_numbers { JobNumbers result place.new (terms_of width.new height.new weight.new low.new high.new) (rounds_of quick.new allowance.new) weighted.new flowed.new (read_answer tape.now samples.old weights.old flow.old) }
    ensures samples_after { samples.new ≡ read_samples tape.now samples.old weights.old flow.old }
    ensures weights_after { weights.new ≡ read_weights tape.now samples.old weights.old flow.old }
    ensures flow_after { flow.new ≡ read_flow tape.now samples.old weights.old flow.old }
    ensures accepted { (result ≡ 0) ↔ ReadAllowed tape.now samples.old weights.old flow.old }
    ensures writes_back { result ≡ 0 → WritesBack (terms_of width.new height.new weight.new low.new high.new) (rounds_of quick.new allowance.new) (take (pixels_of (terms_of width.new height.new weight.new low.new high.new)) samples.new) (take (weighted.new * pairs_of (terms_of width.new height.new weight.new low.new high.new)) weights.new) (take (flowed.new * pairs_of (terms_of width.new height.new weight.new low.new high.new)) flow.new) tape.now }
{
    let n = ReadNumbers::of(read(tape, samples, weights, flow));
    let t = n.terms;
    let r = n.rounds;
    *place = n.place;
    *width = t.width;
    *height = t.height;
    *weight = t.weight;
    *low = t.low;
    *high = t.high;
    *quick = r.quick;
    *allowance = r.allowance;
    *weighted = n.weighted;
    *flowed = n.flowed;
    n.number
}
