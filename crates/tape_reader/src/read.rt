// Read: the whole tape is judged before anything is written.

ghost use Rattle.std.specs.Prelude.{◌≡◌, ◌↔◌, take};
ghost use Rattle.model.specs.Tape.{lent_by, read_answer, read_samples, read_weights, read_flow};
ghost use Rattle.model.specs.Calls.{pixels_of};
ghost use Rattle.model.specs.Accepted.{ReadAllowed};
ghost use Rattle.model.specs.RoundTrip.{WritesBack, weight_count, flow_count};
ghost use Rattle.tape_reader.specs.Scan.{WholeRecords};
ghost use Rattle.model.specs.Answers.{read_answer_of};

use crate::fill::{Records, fill, first_beyond};
use crate::scan::scan_tape;
use model::{Job, Lent, Reason, Refusal};
use tape_records::section::{FlowNumbers, PairWeights, Samples, Section};
use tape_records::state::ParserState;

// The numbers of a tape whose records have passed: 8 is judged, and the buffers are filled.
pub fn read_numbers(
    tape: &[u8],
    state: ParserState,
    samples: &mut [u8],
    weights: &mut [i32],
    flow: &mut [i32],
) -> Result<Job, Refusal>
    requires { WholeRecords tape.now (lent_by samples.old weights.old flow.old) state }
    ensures result_value { read_answer_of result ≡ read_answer tape.now samples.old weights.old flow.old }
    ensures samples_after { samples.new ≡ read_samples tape.now samples.old weights.old flow.old }
    ensures weights_after { weights.new ≡ read_weights tape.now samples.old weights.old flow.old }
    ensures flow_after { flow.new ≡ read_flow tape.now samples.old weights.old flow.old }
{
    let sample_records = Records {
        start: 15,
        count: state.samples,
    };
    let weight_records = Records {
        start: 15 + Samples::LENGTH * state.samples,
        count: state.weights,
    };
    let flow_records = Records {
        start: weight_records.start + PairWeights::LENGTH * state.weights,
        count: state.flows,
    };
    if let Some(place) = first_beyond(tape, state.terms.weight, weight_records, flow_records) {
        return Err(Refusal {
            reason: Reason::BeyondWeight,
            place,
        });
    }
    fill::<Samples>(tape, sample_records, samples);
    fill::<PairWeights>(tape, weight_records, weights);
    fill::<FlowNumbers>(tape, flow_records, flow);
    Ok(Job {
        terms: state.terms,
        rounds: state.rounds,
        weighted: state.weights != 0,
        flowed: state.flows != 0,
    })
}

// A tape is read into the front of the buffers. A refused one leaves them all as they were.
pub fn read(
    tape: &[u8],
    samples: &mut [u8],
    weights: &mut [i32],
    flow: &mut [i32],
) -> Result<Job, Refusal>
    ensures result_value { read_answer_of result ≡ read_answer tape.now samples.old weights.old flow.old }
    ensures samples_after { samples.new ≡ read_samples tape.now samples.old weights.old flow.old }
    ensures weights_after { weights.new ≡ read_weights tape.now samples.old weights.old flow.old }
    ensures flow_after { flow.new ≡ read_flow tape.now samples.old weights.old flow.old }
    ensures accepted { ((read_answer_of result).number ≡ 0) ↔ ReadAllowed tape.now samples.old weights.old flow.old }
    ensures writes_back { (read_answer_of result).number ≡ 0 → WritesBack (read_answer_of result).terms (read_answer_of result).rounds (take (pixels_of (read_answer_of result).terms) samples.new) (take (weight_count (read_answer_of result)) weights.new) (take (flow_count (read_answer_of result)) flow.new) tape.now }
{
    let lent = Lent {
        samples: samples.len(),
        weights: weights.len(),
        flow: flow.len(),
        followed: false,
    };
    let (state, _) = scan_tape(tape, 0, ParserState::initial(), lent)?;
    read_numbers(tape, state, samples, weights, flow)
}
