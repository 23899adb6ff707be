// The clamp of a signed number. Other signed arithmetic is the language's own.

ghost use Rattle.std.specs.Prelude.{◌≡◌};
ghost use Rattle.integers.specs.Whole.{clamp};

// z, clamped to low .. high. Not std's `clamp`, which requires low ≤ high: no contract that clamps
// promises that of its ends.
#[tactic(auto, using(std::proofs::lemmas::Int::ints), unfolding(crate::specs::Whole::clamp))]
pub fn clamped(z: i32, low: i32, high: i32) -> i32
    ensures { result ≡ clamp low high z }
{
    if z < low {
        low
    } else if high < z {
        high
    } else {
        z
    }
}
