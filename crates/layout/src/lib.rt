// The layout of a raster's pairs in flow order, as runs: along a run both pixels of a pair are next to
// those of the pair before.

#![tactic(auto)]

ghost use Rattle.std.specs.Prelude.{◌≡◌, ◌<◌};
ghost use Rattle.layout.specs.Runs.{shape_of, vertical, column_runs, column_run, row_run, run_count, run_at};
ghost use Rattle.layout.specs.Limits.{ByteLevels, ShapeLimits};

use model::Terms;

// The most pairs of a run.
const LONGEST: usize = 4096;

// What determines the pairs of a raster: its size. That a size is allowed (`ShapeLimits`) stays a clause and is no field
// of it: the definitions make shapes, too, of any terms.
#[derive(Clone, Copy, Debug, PartialEq, Eq)]
pub struct Shape {
    pub width: usize,
    pub height: usize,
}

// A run of pairs: pair `pair + j` joins pixel `first + j` to pixel `second + j`, for each j below
// `count`, which is at most 4,096.
#[derive(Clone, Copy, Debug, PartialEq, Eq)]
pub struct Run {
    pub pair: usize,
    pub count: usize,
    pub first: usize,
    pub second: usize,
}

impl Shape {
    // The shape of a job. The levels of its box are bytes, as their type says; the limits of the
    // passes over the shape rest on that.
    pub fn of(t: Terms) -> Shape
        ensures value { result ≡ shape_of t }
        ensures byte_levels { ByteLevels t }
    {
        Shape {
            width: t.width as usize,
            height: t.height as usize,
        }
    }

    // How many vertical pairs there are: they come first.
    fn vertical(self) -> usize
        requires { ShapeLimits self }
        ensures { result ≡ vertical self }
    {
        self.width * (self.height - 1)
    }

    // How many runs they make.
    fn column_runs(self) -> usize
        requires { ShapeLimits self }
        ensures { result ≡ column_runs self }
    {
        self.vertical().div_ceil(LONGEST)
    }

    // Run k of the vertical pairs: 4,096 of them, or those that are left.
    fn column_run(self, k: usize) -> Run
        requires { ShapeLimits self × (k < column_runs self) }
        ensures { result ≡ column_run self k }
    {
        let start = LONGEST * k;
        Run {
            pair: start,
            count: LONGEST.min(self.vertical() - start),
            first: start,
            second: start + self.width,
        }
    }

    // The horizontal pairs of row r.
    fn row_run(self, r: usize) -> Run
        requires { ShapeLimits self × (r < self.height) }
        ensures { result ≡ row_run self r }
    {
        let start = r * self.width;
        Run {
            pair: self.vertical() + r * (self.width - 1),
            count: self.width - 1,
            first: start,
            second: start + 1,
        }
    }

    // How many runs the pairs of a raster make.
    pub fn run_count(self) -> usize
        requires { ShapeLimits self }
        ensures { result ≡ run_count self }
    {
        self.column_runs() + self.height
    }

    // Run k of a raster's pairs.
    #[tactic(auto, unfolding(crate::specs::Runs::run_at))]
    pub fn run(self, k: usize) -> Run
        requires { ShapeLimits self × (k < run_count self) }
        ensures { result ≡ run_at self k }
    {
        let columns = self.column_runs();
        if k < columns {
            self.column_run(k)
        } else {
            self.row_run(k - columns)
        }
    }
}
