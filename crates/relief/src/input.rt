// Standard input, as far as a buffer holds it.

ghost use Rattle.std.specs.Prelude.{◌≤◌, ◌<◌, IfOk, IfErr, length, take};
ghost use Rattle.std.specs.Io.KnownBytes.{Consumes, IsAtEnd};
ghost use Rattle.relief.specs.Input.{count_of};

use std::io::Read;

// A read failed behind so many bytes.
#[derive(Clone, Copy, Debug, PartialEq, Eq)]
pub struct Interrupted {
    pub count: usize,
}

// Reads until the buffer is full, the input ends or a read fails, which happens only where there is
// room; how many bytes were read. How many bytes come, which they are, and whether a read fails is free:
// the operating system's call promises nothing of it. Of a reader whose bytes are known they are the first
// of these, and all where no read failed and the buffer is not full.
pub fn read_input<R: Read>(stdin: &mut R, buffer: &mut [u8]) -> Result<usize, Interrupted>
    ensures within { count_of result ≤ length buffer.new }
    ensures room_where_failed { IfErr result (λ e. e.count < length buffer.new) }
    ensures first_bytes { Consumes (R.remaining stdin.old) (R.remaining stdin.new) (take (count_of result) buffer.new) }
    ensures all_bytes { IfOk result (λ count. count < length buffer.new → IsAtEnd (R.remaining stdin.new)) }
{
    // Not by std's `read_exact`, which does not say how many bytes came before the input ended or a read failed.
    let mut count = 0;
    while count < buffer.len() {
        match stdin.read(&mut buffer[count..]) {
            Ok(0) => break,
            Ok(more) => count += more,
            Err(_) => return Err(Interrupted { count }),
        }
    }
    Ok(count)
}
