// Numbers in bytes, lowest byte first. Two functions and no generic one: `from_le_bytes` is no method of a trait.

ghost use Rattle.std.specs.Prelude.{◌≡◌, ◌+◌, ◌<◌, length, get_or};
ghost use Rattle.model.specs.Tape.{from_two, from_four};

// The two bytes from an offset on.
pub fn two_at(tape: &[u8], at: usize) -> u16
    requires { at + 1 < length tape.now }
    ensures { result ≡ from_two (get_or tape.now at 0) (get_or tape.now (at + 1) 0) }
{
    u16::from_le_bytes([tape[at], tape[at + 1]])
}

// The four bytes from an offset on, as a signed number.
pub fn four_at(tape: &[u8], at: usize) -> i32
    requires { at + 3 < length tape.now }
    ensures { result ≡ from_four (get_or tape.now at 0) (get_or tape.now (at + 1) 0) (get_or tape.now (at + 2) 0) (get_or tape.now (at + 3) 0) }
{
    i32::from_le_bytes([tape[at], tape[at + 1], tape[at + 2], tape[at + 3]])
}
