// Parts of a buffer that may be empty, and then stand for one number at every index; the weights of
// pairs; the parts that belong to a run.

ghost use Rattle.std.specs.Prelude.{◌≡◌, ◌+◌, ◌≤◌, ◌<◌, length, get_or, take, drop};
ghost use Rattle.passes.specs.Pairs.{weight_at};

use layout::Run;

// The number at an index of a part; of an empty one the number that it stands for.
pub fn number_or(part: &[i32], i: usize, other: i32) -> i32
    requires { 0 < length part.now → i < length part.now }
    ensures { result ≡ get_or part.now i other }
{
    if part.len() == 0 { other } else { part[i] }
}

// So many numbers of a part from an index on; of an empty one none.
pub fn part_of<'a>(part: &'a [i32], start: usize, count: usize) -> &'a [i32]
    requires { 0 < length part.now → start + count ≤ length part.now }
    ensures { result.now ≡ take count (drop start part.now) }
{
    if part.len() == 0 {
        part
    } else {
        &part[start..start + count]
    }
}

// The weights of pairs: their own, or where none are given one for all. Their limits (`WeightLimits`) stay a clause, as those
// of a flow and of an image do: they are of the run or raster that the weights are of, which no field knows.
#[derive(Clone, Copy)]
pub struct Weights<'a> {
    pub all: i32,
    pub own: &'a [i32],
}

impl<'a> Weights<'a> {
    // The weight of pair j.
    pub fn at(self, j: usize) -> i32
        requires { 0 < length self.own.now → j < length self.own.now }
        ensures { result ≡ weight_at self.entry.all self.entry.own.now j }
    {
        number_or(self.own, j, self.all)
    }

    // Those of a run's pairs.
    pub fn of_run(self, r: Run) -> Weights<'a>
        requires { 0 < length self.own.now → r.pair + r.count ≤ length self.own.now }
        ensures all { result.all ≡ self.entry.all }
        ensures own { result.own.now ≡ take r.count (drop r.pair self.entry.own.now) }
    {
        Weights {
            all: self.all,
            own: part_of(self.own, r.pair, r.count),
        }
    }
}

// The values of an image at the first and at the second pixels of a run's pairs.
#[derive(Clone, Copy)]
pub struct Values<'a> {
    pub first: &'a [i32],
    pub second: &'a [i32],
}

impl<'a> Values<'a> {
    pub fn of_run(image: &'a [i32], r: Run) -> Values<'a>
        requires { (r.first + r.count ≤ length image.now) × (r.second + r.count ≤ length image.now) }
        ensures first { result.first.now ≡ take r.count (drop r.first image.now) }
        ensures second { result.second.now ≡ take r.count (drop r.second image.now) }
    {
        Values {
            first: part_of(image, r.first, r.count),
            second: part_of(image, r.second, r.count),
        }
    }
}
