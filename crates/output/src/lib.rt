// Bytes written into a lent buffer, one behind the other. Each function gives the offset behind what
// it wrote.
//
// The buffer and the offset stay two parameters: a struct that held the `&mut` would need a clause in
// each function that its field is still the same borrow, and a function that handed back the rest of
// the buffer a clause for what the whole ends as. `Put` says both in one equation.

#![tactic(auto)]

ghost use Rattle.std.specs.Prelude.{[], ◌∷◌, ◌+◌, ◌≤◌, length};
ghost use Rattle.output.specs.Put.{Put};

pub fn put_byte(output: &mut [u8], o: usize, byte: u8) -> usize
    requires { o + 1 ≤ length output.old }
    ensures { Put o (byte ∷ []) output.old result output.new }
{
    output[o] = byte;
    o + 1
}

pub fn put_bytes(output: &mut [u8], o: usize, bytes: &[u8]) -> usize
    requires { o + length bytes.now ≤ length output.old }
    ensures { Put o bytes.now output.old result output.new }
{
    // A loop, since std's `copy_from_slice` is a call of C's `memmove`, which the programs and the library do without.
    let mut next = o;
    for i in 0..bytes.len() {
        next = put_byte(output, next, bytes[i]);
    }
    next
}
