// A refusal's line, and the header line with the line of numbers.

ghost use Rattle.std.specs.Prelude.{◌++◌, ◌+◌, ◌≤◌, pos, length};
ghost use Rattle.model.specs.Calls.{refusal};
ghost use Rattle.model.specs.Text.{ascii};
ghost use Rattle.model.specs.Program.{refusal_text, numbers_text};
ghost use Rattle.output.specs.Put.{Put};

use crate::number::{Decimal, put_field};
use model::Figures;
use output::{put_byte, put_bytes};

// A number and no `Reason`: whoever has only the number prints it, too, and a narrower type would ask for more.
pub fn put_refusal(output: &mut [u8], o: usize, number: u32, place: usize) -> usize
    requires { o + 53 ≤ length output.old }
    ensures { Put o (refusal_text (refusal number place)) output.old result output.new }
{
    let first = put_bytes(output, o, b"refused ");
    let second = number.put(output, first);
    let third = put_bytes(output, second, b" at ");
    let fourth = place.put(output, third);
    put_byte(output, fourth, b'\n')
}

// The numbers of an accepted answer, to the end of their line.
fn put_numbers(output: &mut [u8], o: usize, moved: u32, figures: Figures) -> usize
    requires { o + 86 ≤ length output.old }
    ensures put { Put o (numbers_text moved (pos figures.price) figures.floor (pos figures.slack)) output.old result output.new }
    ensures upper_bound { result ≤ o + 86 }
{
    let first = put_field(output, o, moved);
    let second = put_field(output, first, figures.price);
    let third = put_field(output, second, figures.floor);
    let fourth = put_field(output, third, figures.slack);
    put_byte(output, fourth, b'\n')
}

// The header line, then the line of numbers with the word of the outcome in front.
pub fn put_figures(output: &mut [u8], o: usize, word: &[u8], moved: u32, figures: Figures) -> usize
    requires { (length word.now ≤ 7) × (o + 125 ≤ length output.old) }
    ensures put { Put o (ascii "outcome moved price floor slack\n" ++ word.now ++ numbers_text moved (pos figures.price) figures.floor (pos figures.slack)) output.old result output.new }
    ensures upper_bound { result ≤ o + 125 }
{
    let first = put_bytes(output, o, b"outcome moved price floor slack\n");
    let second = put_bytes(output, first, word);
    put_numbers(output, second, moved, figures)
}
