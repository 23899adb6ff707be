// The whole text of an answer.

ghost use Rattle.std.specs.Prelude.{◌++◌, ◌+◌, ◌*◌, ◌≤◌, pos, length};
ghost use Rattle.model.specs.Text.{ascii};
ghost use Rattle.model.specs.Program.{numbers_text, image_text, answer_text};
ghost use Rattle.model.specs.Answers.{answer_of};
ghost use Rattle.output.specs.Put.{Put};

use crate::image::put_image;
use crate::line::{put_figures, put_refusal};
use model::{Ending, Figures, Refusal, Terms};

// The header line, the line of numbers and the lines of the image. Word, moved and figures are those of one case of an
// `Ending`, of which this is the text.
fn put_accepted(
    output: &mut [u8],
    o: usize,
    word: &[u8],
    moved: u32,
    figures: Figures,
    t: Terms,
    image: &[i32],
) -> usize
    requires { (length word.now ≤ 7) × (t.height * t.width ≤ length image.now) × (o + 125 + t.height * (22 * t.width + 1) ≤ length output.old) }
    ensures { Put o (ascii "outcome moved price floor slack\n" ++ word.now ++ numbers_text moved (pos figures.price) figures.floor (pos figures.slack) ++ image_text t image.now) output.old result output.new }
{
    let next = put_figures(output, o, word, moved, figures);
    put_image(output, next, image, t.width as usize, t.height as usize)
}

pub fn put_answer(
    output: &mut [u8],
    o: usize,
    a: Result<Ending, Refusal>,
    t: Terms,
    image: &[i32],
) -> usize
    requires { (t.height * t.width ≤ length image.now) × (o + 125 + t.height * (22 * t.width + 1) ≤ length output.old) }
    ensures { Put o (answer_text (answer_of a) t image.now) output.old result output.new }
{
    match a {
        Err(refusal) => put_refusal(output, o, refusal.reason.number(), refusal.place),
        Ok(Ending::Checked { figures }) => {
            put_accepted(output, o, b"checked", 0, figures, t, image)
        }
        Ok(Ending::Settled { moved, figures }) => {
            put_accepted(output, o, b"settled", moved, figures, t, image)
        }
        Ok(Ending::Spent { moved, figures }) => {
            put_accepted(output, o, b"spent", moved, figures, t, image)
        }
    }
}
