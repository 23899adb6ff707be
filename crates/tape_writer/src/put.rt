// The records of a whole job, written one behind the other.

ghost use Rattle.std.specs.Prelude.{◌≡◌, ◌++◌, ◌+◌, ◌≤◌, length};
ghost use Rattle.std.specs.List.{flat_map};
ghost use Rattle.model.specs.declared.Entry.{Entry};
ghost use Rattle.lists.specs.Lists.{overwritten};
ghost use Rattle.model.specs.Tape.{encoded, tape_of};
ghost use Rattle.output.specs.Put.{Put};

use model::{Entry, Rounds, Terms};
use tape_records::encode::put_record;
use tape_records::section::{FlowNumbers, PairWeights, Samples, Section};

// A record for each number, one behind the other.
fn put_section<S: Section>(numbers: &[S::Number], output: &mut [u8], o: usize) -> usize
    requires { o + length (flat_map (λ number. encoded (S.entry number)) numbers.now) ≤ length output.old }
    ensures { Put o (flat_map (λ number. encoded (S.entry number)) numbers.now) output.old result output.new }
{
    let mut next = o;
    for number in numbers {
        next = put_record(output, next, S::entry(*number));
    }
    next
}

// The records of the header.
fn put_header(t: Terms, r: Rounds, output: &mut [u8]) -> usize
    requires { 15 ≤ length output.old }
    ensures { Put 0 (encoded (Entry.Size t.width t.height) ++ encoded (Entry.WeightBox t.weight t.low t.high) ++ encoded (Entry.RoundLimits r.quick r.allowance)) output.old result output.new }
{
    let size = Entry::Size {
        width: t.width,
        height: t.height,
    };
    let weight = Entry::WeightBox {
        weight: t.weight,
        low: t.low,
        high: t.high,
    };
    let rounds = Entry::RoundLimits {
        quick: r.quick,
        allowance: r.allowance,
    };
    let second = put_record(output, 0, size);
    let third = put_record(output, second, weight);
    put_record(output, third, rounds)
}

// The whole tape, at the front of the output; how many bytes it has. It takes what `write` is lent, in that order.
pub fn put_tape(
    t: Terms,
    r: Rounds,
    samples: &[u8],
    weights: &[i32],
    flow: &[i32],
    output: &mut [u8],
) -> usize
    requires { length (tape_of t r samples.now weights.now flow.now) ≤ length output.old }
    ensures value { result ≡ length (tape_of t r samples.now weights.now flow.now) }
    ensures output_after { output.new ≡ overwritten (tape_of t r samples.now weights.now flow.now) output.old }
{
    let first = put_header(t, r, output);
    let second = put_section::<Samples>(samples, output, first);
    let third = put_section::<PairWeights>(weights, output, second);
    let fourth = put_section::<FlowNumbers>(flow, output, third);
    put_record(output, fourth, Entry::End)
}
