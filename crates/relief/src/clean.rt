// What the program prints for the bytes that it has read.

ghost use Rattle.std.specs.Prelude.{◌≡◌, length};
ghost use Rattle.std.specs.Counts.{IsPrefixLen};
ghost use Rattle.lists.specs.Lists.{overwritten};
ghost use Rattle.model.specs.Program.{program_text};

use job::tape::put_tape_answer;
use model::Reason;
use text::line::put_refusal;

// The text stands at the front of the output; how many bytes it has. The tables hold 4,096 samples,
// 8,064 pair weights and 8,064 flow values; the output has room for the text of the largest job that they hold.
pub fn clean(input: &[u8], output: &mut [u8; 98304]) -> usize
    ensures value { result ≡ length (program_text input.now) }
    ensures output_after { output.new ≡ overwritten (program_text input.now) output.old }
    ensures prefix_len { IsPrefixLen result output.new }
{
    if 65536 < input.len() {
        return put_refusal(output, 0, Reason::LongInput.number(), 0);
    }
    // Fixed memory: the program has no heap.
    let mut samples = [0u8; 4096];
    let mut weights = [0i32; 8064];
    let mut flow = [0i32; 8064];
    let mut image = [0i32; 4096];
    let mut work = [0i32; 16128];
    put_tape_answer(
        input,
        &mut samples,
        &mut weights,
        &mut flow,
        &mut image,
        &mut work,
        output,
    )
}
