// The limits of a job's terms; what comes for all pixels or pairs, or for none.

ghost use Rattle.std.specs.Prelude.{◌≡◌, not, ltb};
ghost use Rattle.model.specs.Grid.{size_allowed, weight_allowed, box_allowed};
ghost use Rattle.model.specs.Calls.{all_or_none};

// Width and height are each 1 to 4,096, their product at most 1,048,576.
#[tactic(auto, unfolding(model::specs::Grid::size_allowed))]
pub fn size_allowed(width: u32, height: u32) -> bool
    ensures { result ≡ size_allowed width height }
{
    1 <= width && width <= 4096 && (1 <= height && height <= 4096) && width * height <= 1048576
}

#[tactic(auto, unfolding(model::specs::Grid::weight_allowed))]
pub fn weight_allowed(weight: u32) -> bool
    ensures { result ≡ weight_allowed weight }
{
    weight <= 65280
}

#[tactic(auto, unfolding(model::specs::Grid::box_allowed))]
pub fn box_allowed(low: u8, high: u8) -> bool
    ensures { result ≡ box_allowed low high }
{
    low <= high
}

pub fn quick_allowed(quick: u32) -> bool
    ensures { result ≡ not (ltb 4096 quick) }
{
    quick <= 4096
}

// Whether so many are none or all of what is due.
pub fn all_or_none(count: usize, due: usize) -> bool
    ensures { result ≡ all_or_none count due }
{
    count == 0 || count == due
}
