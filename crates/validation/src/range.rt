// Values outside a range.

ghost use Rattle.std.specs.Prelude.{◌≡◌, ◌<◌, length};
ghost use Rattle.lists.specs.Lists.{at, below};
ghost use Rattle.validation.specs.Outside.{first_outside_range};

use crate::search::first_index;
use stencil::pixel::Ends;

// The first index whose value lies outside a range.
pub fn first_outside(values: &[i32], ends: Ends) -> Option<usize>
    ensures { result ≡ below (length values.now) (first_outside_range ends.low ends.high values.now) }
{
    first_index(values.len(), |i| ends.exclude(values[i]))
}
