// A number in decimal digits.

ghost use Rattle.std.specs.Prelude.{List, ℕ, ◌+◌, ◌≤◌, length};
ghost use Rattle.model.specs.Text.{decimal, signed_decimal};
ghost use Rattle.model.specs.Program.{field};
ghost use Rattle.output.specs.Put.{Put};

use output::{put_byte, put_bytes};

// A type of numbers that are printed in decimal digits: their text, and the room that the longest needs.
pub trait Decimal: Copy {
    ghost text: { Self → List ℕ };

    ghost room: { ℕ };

    fn put(self, output: &mut [u8], o: usize) -> usize
        requires { o + room ≤ length output.old }
        ensures put { Put o (text self) output.old result output.new }
        ensures upper_bound { result ≤ o + room };
}

impl Decimal for u64 {
    ghost text = { decimal };

    ghost room = { 20 };

    fn put(self, output: &mut [u8], o: usize) -> usize {
        let mut digits = [0u8; 20];
        let k = io::decimal(self, &mut digits);
        put_bytes(output, o, &digits[..k])
    }
}

impl Decimal for u32 {
    ghost text = { decimal };

    ghost room = { 20 };

    fn put(self, output: &mut [u8], o: usize) -> usize {
        u64::from(self).put(output, o)
    }
}

impl Decimal for usize {
    ghost text = { decimal };

    ghost room = { 20 };

    fn put(self, output: &mut [u8], o: usize) -> usize {
        (self as u64).put(output, o)
    }
}

// With a sign in front where it is negative.
impl Decimal for i64 {
    ghost text = { signed_decimal };

    ghost room = { 21 };

    fn put(self, output: &mut [u8], o: usize) -> usize {
        let magnitude = self.unsigned_abs();
        if self < 0 {
            let next = put_byte(output, o, b'-');
            magnitude.put(output, next)
        } else {
            magnitude.put(output, o)
        }
    }
}

impl Decimal for i32 {
    ghost text = { signed_decimal };

    ghost room = { 21 };

    fn put(self, output: &mut [u8], o: usize) -> usize {
        i64::from(self).put(output, o)
    }
}

// With a space in front.
#[tactic(auto, using(output::proofs::Puts::put_within), unfolding(model::specs::Text::ascii))]
pub fn put_field<N: Decimal>(output: &mut [u8], o: usize, n: N) -> usize
    requires { o + (1 + N.room) ≤ length output.old }
    ensures put { Put o (field (N.text n)) output.old result output.new }
    ensures upper_bound { result ≤ o + (1 + N.room) }
{
    let next = put_byte(output, o, b' ');
    n.put(output, next)
}
