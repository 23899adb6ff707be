// Passes over pixels.

ghost use Rattle.std.specs.Prelude.{◌≡◌, pos, ◌-ℤ◌, length, get_or};
ghost use Rattle.integers.specs.Whole.{square};
ghost use Rattle.integers.specs.Sum.{total};
ghost use Rattle.lists.specs.Lists.{at};
ghost use Rattle.model.specs.Grid.{reading_of};
ghost use Rattle.passes.specs.Limits.{MisfitLimits};

use stencil::pixel;

// The data term: the sum of the squared differences of values and readings.
pub fn misfit(image: &[i32], samples: &[u8]) -> u64
    requires { MisfitLimits image.now samples.now }
    ensures { pos result ≡ total (length image.now) (λ i. square (at image.now i -ℤ reading_of (get_or samples.now i 0))) }
{
    let mut sum = 0;
    for i in 0..image.len() {
        sum += pixel::squared_misfit(image[i], samples[i]);
    }
    sum
}
