// What one pixel computes to. The passes call these for each element.

ghost use Rattle.std.specs.Prelude.{◌≡◌, ◌||◌, ◌≤◌, pos, nat_abs, ◌+ℤ◌, ◌-ℤ◌};
ghost use Rattle.std.specs.Int.Signed.{lt_z};
ghost use Rattle.integers.specs.Whole.{square, clamp};
ghost use Rattle.model.specs.Grid.{reading_of, low_end, high_end};
ghost use Rattle.stencil.specs.Limits.{most, PixelLimits};
ghost use Rattle.stencil.specs.Ends.{BoxEnds};

use integers::signed::clamped;
use model::Terms;

// The sub-units of a level.
const LEVEL: i32 = 256;

// The value at which a sample is read, in sub-units: the centre of its level.
#[tactic(auto, using(std::proofs::lemmas::Int::ints), unfolding(model::specs::Grid::reading_of))]
pub fn reading(s: u8) -> i32
    ensures { result ≡ reading_of s }
{
    LEVEL * i32::from(s) + LEVEL / 2
}

// The squared difference of a value and its sample's reading.
pub fn squared_misfit(x: i32, s: u8) -> u64
    requires { nat_abs x ≤ most }
    ensures { pos result ≡ square (x -ℤ reading_of s) }
{
    let d = u64::from(x.abs_diff(reading(s)));
    d * d
}

// A pixel of a flow's image, from its reading b and the numbers of its pairs with the pixels
// around it.
pub fn pixel_value(b: i32, below: i32, right: i32, above: i32, left: i32, ends: Ends) -> i32
    requires { PixelLimits b below right above left }
    ensures { result ≡ clamp ends.low ends.high (b -ℤ ((below +ℤ right) -ℤ (above +ℤ left))) }
{
    clamped(b - ((below + right) - (above + left)), ends.low, ends.high)
}

// The lower end of the box, in sub-units: the first of its lowest level.
#[tactic(auto, using(std::proofs::lemmas::Int::ints), unfolding(model::specs::Grid::low_end))]
pub fn low_end(low: u8) -> i32
    ensures { result ≡ low_end low }
{
    LEVEL * i32::from(low)
}

// The upper end of the box: the last of its highest level.
#[tactic(auto, using(std::proofs::lemmas::Int::ints), unfolding(model::specs::Grid::high_end))]
pub fn high_end(high: u8) -> i32
    ensures { result ≡ high_end high }
{
    LEVEL * i32::from(high) + (LEVEL - 1)
}

// The two ends of a range, in sub-units.
#[derive(Clone, Copy, Debug, PartialEq, Eq)]
pub struct Ends {
    pub low: i32,
    pub high: i32,
}

impl Ends {
    // Those of a job's box.
    pub fn of(t: Terms) -> Ends
        ensures { BoxEnds t result.low result.high }
    {
        Ends {
            low: low_end(t.low),
            high: high_end(t.high),
        }
    }

    // Whether a value lies outside.
    pub fn exclude(self, z: i32) -> bool
        ensures { result ≡ (lt_z z self.low || lt_z self.high z) }
    {
        z < self.low || self.high < z
    }
}
