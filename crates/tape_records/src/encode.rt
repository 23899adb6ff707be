// Records written into a buffer at an offset, two parameters for the reason that crate `output` gives.

ghost use Rattle.std.specs.Prelude.{◌≡◌, ◌+◌, ◌≤◌, length};
ghost use Rattle.model.specs.Tape.{two_bytes, encoded};
ghost use Rattle.output.specs.Put.{Put};

use model::Entry;
use output::put_bytes;

// The two lowest bytes of a number, the lowest first.
fn two_bytes(n: u32) -> [u8; 2]
    ensures { result ≡ two_bytes n }
{
    let [low, high, ..] = n.to_le_bytes();
    [low, high]
}

// A record: its kind, then its numbers. The offset behind it.
pub fn put_record(output: &mut [u8], o: usize, entry: Entry) -> usize
    requires { o + length (encoded entry) ≤ length output.old }
    ensures { Put o (encoded entry) output.old result output.new }
{
    match entry {
        Entry::End => put_bytes(output, o, &[0]),
        Entry::Size { width, height } => {
            let [w0, w1] = two_bytes(width);
            let [h0, h1] = two_bytes(height);
            put_bytes(output, o, &[1, w0, w1, h0, h1])
        }
        Entry::WeightBox { weight, low, high } => {
            let [w0, w1] = two_bytes(weight);
            put_bytes(output, o, &[2, w0, w1, low, high])
        }
        Entry::RoundLimits { quick, allowance } => {
            let [q0, q1] = two_bytes(quick);
            let [a0, a1] = allowance.to_le_bytes();
            put_bytes(output, o, &[3, q0, q1, a0, a1])
        }
        Entry::Sample { code } => put_bytes(output, o, &[4, code]),
        Entry::Flow { value } => {
            let [b0, b1, b2, b3] = value.to_le_bytes();
            put_bytes(output, o, &[5, b0, b1, b2, b3])
        }
        Entry::PairWeight { weight } => {
            let [w0, w1] = two_bytes(weight);
            put_bytes(output, o, &[6, w0, w1])
        }
    }
}
