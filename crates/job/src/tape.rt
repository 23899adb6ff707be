// What is printed for a tape: the text of its job's answer, or of its refusal.

ghost use Rattle.std.specs.Prelude.{length};
ghost use Rattle.model.specs.Tape.{lent_by, parse};
ghost use Rattle.model.specs.Program.{read_text};
ghost use Rattle.output.specs.Put.{Put};
ghost use Rattle.job.specs.Tables.{TextTables};

use crate::answer::{answer_of, pixels_of, terms_of};
use tape_reader::read::read;
use text::answer::put_answer;

// The text is laid at the front of the output; how many bytes it has.
pub fn put_tape_answer(
    input: &[u8],
    samples: &mut [u8],
    weights: &mut [i32],
    flow: &mut [i32],
    image: &mut [i32],
    work: &mut [i32],
    output: &mut [u8],
) -> usize
    requires { TextTables (length samples.old) (length flow.old) (length image.old) (length work.old) (length output.old) }
    ensures { Put 0 (read_text (parse input.now (lent_by samples.old weights.old flow.old))) output.old result output.new }
{
    let got = read(input, samples, weights, flow);
    let answer = answer_of(got, samples, weights, flow, image, work);
    let n = pixels_of(got);
    put_answer(output, 0, answer, terms_of(got), &image[..n])
}
