// The momentum T of the quick rounds, in 1/65,536.

#![tactic(auto)]

ghost use Rattle.std.specs.Prelude.{◌+◌, ◌*◌, ◌^◌, ◌≤◌, ◌<◌, ◌≡◌, nat_abs};
ghost use Rattle.model.specs.Grid.{limit};
ghost use Rattle.model.specs.Root.{root as the_root};
ghost use Rattle.model.specs.Rounds.{next_momentum};
ghost use Rattle.momentum.specs.Reciprocal.{Reciprocal, ahead_of};

// A momentum of 1.
const ONE: u64 = 65536;

// The units of a reciprocal: 2^32 from the first step of its division, times 2^14 from the second.
const HIGH: u64 = 4294967296;

const LOW: u64 = 16384;

const UNITS: u64 = HIGH * LOW;

// The root of T's rule. It lies from 2 t on, at most `ONE` above it, and each turn halves what is left to look through: 17
// turns, where std's `isqrt` takes 32 for any number, and a run of few pixels a third more time.
fn root(t: u64) -> u64
    requires { t < 2 ^ 29 }
    ensures { result ≡ the_root (65536 * 65536 + 4 * (t * t)) }
{
    let n = ONE * ONE + 4 * (t * t);
    let mut low = 2 * t;
    let mut reach = ONE + 1;
    while reach > 1 {
        let half = (reach + 1) / 2;
        let middle = low + half;
        if middle * middle <= n {
            low = middle;
        }
        reach = half;
    }
    low
}

// T of the next round.
pub fn next_momentum(t: u64) -> u64
    requires { t < 2 ^ 29 }
    ensures { result ≡ next_momentum t }
{
    (ONE + root(t)) / 2
}

// A whole number m by which x * a / b, rounded down, is x * m / 2^46, rounded down, for every x with
// x * b below 2^46: one division for a round in place of one for each pair.
pub fn reciprocal(a: u64, b: u64) -> u64
    requires { (0 < b) × (a ≤ b) × (b < 2 ^ 29) }
    ensures { Reciprocal a b result }
{
    let high = a * HIGH / b;
    let rest = a * HIGH % b;
    let low = rest * LOW / b;
    high * LOW + low + 1
}

// A flow number ahead of now, by the change since earlier times the fixed-point factor m, rounded
// toward zero. By the size of the change, since one signed division in its place,
// `i64::from(now - earlier) * m as i64 / UNITS as i64`, takes 1.3 times as long in the pass over pairs.
pub fn extrapolated(earlier: i32, now: i32, m: u64) -> i32
    requires { (nat_abs earlier ≤ limit.weight) × (nat_abs now ≤ limit.weight) × (m ≤ 2 ^ 46) }
    ensures { result ≡ ahead_of m earlier now }
{
    let change = now - earlier;
    let ahead = (u64::from(change.unsigned_abs()) * m / UNITS) as i32;
    if change < 0 { now - ahead } else { now + ahead }
}
