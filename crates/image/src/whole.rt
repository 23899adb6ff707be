// The image of a flow on a raster, row by row.

ghost use Rattle.std.specs.Prelude.{◌≡◌, ◌+◌, ◌-◌, ◌*◌, ◌<◌};
ghost use Rattle.lists.specs.Lists.{table};
ghost use Rattle.lists.specs.Placed.{placed};
ghost use Rattle.layout.specs.Runs.{pixel_count};
ghost use Rattle.image.specs.Limits.{ImageLimits, ImageRowLimits};
ghost use Rattle.image.specs.Image.{image_value};
ghost use Rattle.image.specs.OneRow.{as_one_row};

use crate::row::image_row;
use layout::Shape;
use stencil::pixel::Ends;

// Row r of the image of a flow on a raster, in its place.
fn fill_row(image: &mut [i32], samples: &[u8], flow: &[i32], s: Shape, r: usize, ends: Ends)
    requires { ImageRowLimits image.old samples.now flow.now s.width s.height r }
    ensures { image.new ≡ placed (r * s.width) (table s.width (λ c. image_value ends.low ends.high samples.now flow.now s.width s.height (r * s.width + c))) image.old }
{
    let width = s.width;
    let vertical = width * (s.height - 1);
    let start = r * width;
    let end = start + width;
    let below_end = end.min(vertical);
    let above_start = start.saturating_sub(width);
    let across_start = vertical + r * (width - 1);
    let across_end = across_start + (width - 1);
    image_row(
        &mut image[start..end],
        &samples[start..end],
        &flow[start..below_end],
        &flow[above_start..start],
        &flow[across_start..across_end],
        ends,
    );
}

// One column as one row, whose pixels and pairs stand in the same order; any other shape as it is. A row's parts are then found
// once, and not for each pixel.
fn as_one_row(s: Shape) -> Shape
    ensures { result ≡ as_one_row s }
{
    if s.width == 1 {
        Shape {
            width: s.height,
            height: 1,
        }
    } else {
        s
    }
}

// The image of a flow on a raster.
pub fn fill_image(image: &mut [i32], samples: &[u8], flow: &[i32], s: Shape, ends: Ends)
    requires { ImageLimits image.old samples.now flow.now s.width s.height }
    ensures { image.new ≡ table (pixel_count s) (image_value ends.low ends.high samples.now flow.now s.width s.height) }
{
    let s = as_one_row(s);
    for r in 0..s.height {
        fill_row(image, samples, flow, s, r, ends);
    }
}
