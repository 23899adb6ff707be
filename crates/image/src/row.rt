// A row of the image of a flow, from the parts of the flow that hold the numbers of its pairs: those
// with the row below, those with the row above, and those across the row. Of a row that has none
// below or above, that part is empty.

ghost use Rattle.std.specs.Prelude.{◌≡◌, ◌<◌, length, ◌≤ℤ◌};
ghost use Rattle.lists.specs.Lists.{table};
ghost use Rattle.stencil.specs.Ends.{Between};
ghost use Rattle.image.specs.Limits.{ColumnLimits, RowLimits};
ghost use Rattle.image.specs.Columns.{column_value, row_value};

use passes::part::number_or;
use stencil::pixel::{self, Ends};

// The pixel at column c, from its sample and the numbers of its pairs to the right and left. Its parameters and those
// of `image_row` are each a different thing of a row: a struct of them would be made for one call.
fn column_value(
    sample: u8,
    below: &[i32],
    above: &[i32],
    c: usize,
    right: i32,
    left: i32,
    ends: Ends,
) -> i32
    requires { ColumnLimits below.now above.now c right left }
    ensures { result ≡ column_value ends.low ends.high sample below.now above.now c right left }
{
    pixel::pixel_value(
        pixel::reading(sample),
        number_or(below, c, 0),
        right,
        number_or(above, c, 0),
        left,
        ends,
    )
}

// One row, clamped to the two ends that it is handed. Each column's number to the right is the next
// column's to the left.
pub fn image_row(
    row: &mut [i32],
    samples: &[u8],
    below: &[i32],
    above: &[i32],
    across: &[i32],
    ends: Ends,
)
    requires { RowLimits row.old samples.now below.now above.now across.now }
    ensures row_after { row.new ≡ table (length row.old) (row_value ends.low ends.high samples.now below.now above.now across.now) }
    ensures between { ends.low ≤ℤ ends.high → Between ends.low ends.high row.new }
{
    let mut left = 0;
    for c in 0..across.len() {
        let right = across[c];
        row[c] = column_value(samples[c], below, above, c, right, left, ends);
        left = right;
    }
    let last = across.len();
    row[last] = column_value(samples[last], below, above, last, 0, left, ends);
}
