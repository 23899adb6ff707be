// One line of image values for each row.

ghost use Rattle.std.specs.Prelude.{cond, ◌+◌, ◌*◌, ◌≤◌, eqb, length};
ghost use Rattle.lists.specs.Lists.{at, chain};
ghost use Rattle.model.specs.Text.{signed_decimal};
ghost use Rattle.model.specs.Program.{field, row_text};
ghost use Rattle.output.specs.Put.{Put};

use crate::number::{Decimal, put_field};
use output::put_byte;

// A value, with a space in front of it but for the first of its row.
fn put_value(output: &mut [u8], o: usize, column: usize, value: i32) -> usize
    requires { o + 22 ≤ length output.old }
    ensures put { Put o (cond (eqb column 0) (signed_decimal value) (field (signed_decimal value))) output.old result output.new }
    ensures upper_bound { result ≤ o + 22 }
{
    if column == 0 {
        value.put(output, o)
    } else {
        put_field(output, o, value)
    }
}

// The line of a row.
fn put_row(output: &mut [u8], o: usize, row: &[i32]) -> usize
    requires { o + (22 * length row.now + 1) ≤ length output.old }
    ensures put { Put o (row_text (length row.now) (at row.now)) output.old result output.new }
    ensures upper_bound { result ≤ o + (22 * length row.now + 1) }
{
    let mut next = o;
    for (column, value) in row.iter().enumerate() {
        next = put_value(output, next, column, *value);
    }
    put_byte(output, next, b'\n')
}

pub fn put_image(output: &mut [u8], o: usize, image: &[i32], width: usize, height: usize) -> usize
    requires { (height * width ≤ length image.now) × (o + height * (22 * width + 1) ≤ length output.old) }
    ensures put { Put o (chain height (λ row. row_text width (λ column. at image.now (row * width + column)))) output.old result output.new }
    ensures upper_bound { result ≤ o + height * (22 * width + 1) }
{
    let mut next = o;
    for row in 0..height {
        let start = row * width;
        next = put_row(output, next, &image[start..start + width]);
    }
    next
}
