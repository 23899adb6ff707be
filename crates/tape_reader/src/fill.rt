// The numbers of a whole tape: the first flow number beyond its pair's weight, and the buffers filled.

ghost use Rattle.std.specs.Prelude.{◌≡◌, ◌+◌, ◌*◌, ◌≤◌, length};
ghost use Rattle.lists.specs.Lists.{table, first_where, below, overwritten};
ghost use Rattle.tape_reader.specs.Places.{own_weight, beyond_own};

use tape_records::section::{FlowNumbers, PairWeights, Section};
use validation::is_beyond;

// Records of one kind, one behind the other: where the first begins, and how many there are.
#[derive(Clone, Copy, Debug, PartialEq, Eq)]
pub struct Records {
    pub start: usize,
    pub count: usize,
}

// The weight of pair j: that of its record, or, where there are none, the terms' weight.
fn own_weight(tape: &[u8], weight: u32, weights: Records, j: usize) -> u32
    requires { weights.start + 3 * (j + 1) ≤ length tape.now }
    ensures { result ≡ own_weight tape.now weight weights.start weights.count j }
{
    if weights.count == 0 {
        weight
    } else {
        PairWeights::number(tape, weights.start + PairWeights::LENGTH * j).unsigned_abs()
    }
}

// The first flow number beyond ± its pair's weight.
pub fn first_beyond(tape: &[u8], weight: u32, weights: Records, flow: Records) -> Option<usize>
    requires { (weights.start + 3 * flow.count ≤ length tape.now) × (flow.start + 5 * flow.count ≤ length tape.now) }
    ensures { result ≡ below flow.count (first_where flow.count (beyond_own tape.now weight weights.start weights.count flow.start)) }
{
    for j in 0..flow.count {
        let limit = own_weight(tape, weight, weights, j);
        let number = FlowNumbers::number(tape, flow.start + FlowNumbers::LENGTH * j);
        if is_beyond(number, limit) {
            return Some(j);
        }
    }
    None
}

// The numbers of records, into the front of a buffer.
pub fn fill<S: Section>(tape: &[u8], records: Records, buffer: &mut [S::Number])
    requires { (records.start + S.LENGTH * records.count ≤ length tape.now) × (records.count ≤ length buffer.old) }
    ensures { buffer.new ≡ overwritten (table records.count (λ j. S.number tape.now (records.start + S.LENGTH * j))) buffer.old }
{
    for j in 0..records.count {
        buffer[j] = S::number(tape, records.start + S::LENGTH * j);
    }
}
