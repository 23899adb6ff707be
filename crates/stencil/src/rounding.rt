// The two kinds of rounds: each rounds the share of a fall that its steps add in its own way.

ghost use Rattle.std.specs.Prelude.{◌≡◌, ◌+◌, ◌*◌, ◌^◌, ◌≤◌, nat_abs, ℤ};
ghost use Rattle.model.specs.Rounds.{eighth, nearest_eighth};
ghost use Rattle.model.proofs.Shares.{eighth-most, nearest_eighth-most};

// An eighth of a fall, rounded.
pub trait Rounding {
    ghost rounded: { ℤ → ℤ };

    fn share(fall: i32) -> i32
        requires { nat_abs fall ≤ 2 ^ 21 }
        ensures { result ≡ rounded fall };

    ghost most: { (d : ℤ) → nat_abs (rounded d) * 8 ≤ nat_abs d + 3 };
}

// Quick rounds: toward zero.
#[derive(Clone, Copy)]
pub struct Quick;

impl Rounding for Quick {
    ghost rounded = { eighth };

    ghost most = { eighth-most };

    fn share(fall: i32) -> i32 {
        fall / 8
    }
}

// Steady rounds: to the nearest whole number, an exact half toward zero.
#[derive(Clone, Copy)]
pub struct Steady;

impl Rounding for Steady {
    ghost rounded = { nearest_eighth };

    ghost most = { nearest_eighth-most };

    // Rounded down after 3 is added, or 4 where the fall is below zero.
    fn share(fall: i32) -> i32 {
        let raise = if fall < 0 { 4 } else { 3 };
        (fall + raise) >> 3
    }
}
