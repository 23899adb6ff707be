// What one pair computes to. The passes call these for each element.

ghost use Rattle.std.specs.Prelude.{◌≡◌, ◌+◌, ◌^◌, ◌≤◌, ◌<◌, pos, nat_abs, ◌-ℤ◌, ◌*ℤ◌, ◌≤ℤ◌};
ghost use Rattle.integers.specs.Whole.{abs};
ghost use Rattle.stencil.specs.Pair.{step_value, moves};
ghost use Rattle.stencil.specs.Limits.{PairLimits};

use crate::rounding::Rounding;
use integers::signed::clamped;

// The number of a pair after a step, from its number and its pixels' values.
pub fn step_value<R: Rounding>(f: i32, x: i32, y: i32, weight: i32) -> i32
    requires { PairLimits weight f x y }
    ensures { result ≡ step_value R.rounded weight f x y }
{
    clamped(f + R::share(x - y), -weight, weight)
}

// Whether a step would change the number of a pair.
pub fn would_move<R: Rounding>(f: i32, x: i32, y: i32, weight: i32) -> bool
    requires { PairLimits weight f x y }
    ensures { result ≡ moves R.rounded weight f x y }
{
    step_value::<R>(f, x, y, weight) != f
}

// A pair's weight times the size of its fall.
pub fn variation(weight: i32, x: i32, y: i32) -> u64
    requires { (pos 0 ≤ℤ weight) × (nat_abs x + nat_abs y < 2 ^ 31) }
    ensures { pos result ≡ weight *ℤ abs (x -ℤ y) }
{
    u64::from(weight.unsigned_abs()) * u64::from(x.abs_diff(y))
}

// A pair's number times its fall.
pub fn product(f: i32, x: i32, y: i32) -> i64
    requires { nat_abs x + nat_abs y < 2 ^ 31 }
    ensures { result ≡ f *ℤ (x -ℤ y) }
{
    i64::from(f) * i64::from(x - y)
}
