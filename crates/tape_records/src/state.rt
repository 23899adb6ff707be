// The state of the parser: what has been read of a tape so far, in counts.

ghost use Rattle.std.specs.Prelude.{◌≡◌};
ghost use Rattle.model.specs.Tape.{nothing};
ghost use Rattle.tape_records.specs.State.{state_of};

use model::{Rounds, Terms};

// How many of the records 1, 2, 3 (the header), their numbers, the counts that the size gives,
// and how many samples, pair weights and flow numbers.
#[derive(Clone, Copy, Debug, Default, PartialEq, Eq)]
pub struct ParserState {
    // A count, as in the definition `Counts`, and no enum: the orders of kinds 0 to 6 all compare it.
    pub header: u32,
    pub terms: Terms,
    pub rounds: Rounds,
    pub pixels: usize,
    pub pairs: usize,
    pub samples: usize,
    pub weights: usize,
    pub flows: usize,
}

impl ParserState {
    // Nothing has been read.
    #[tactic(auto, unfolding(lists::specs::Lists::table, lists::specs::Lists::chain, model::specs::Grid::vertical_pairs, model::specs::Grid::horizontal_pairs, model::specs::Grid::grid_pairs))]
    pub fn initial() -> ParserState
        ensures { result ≡ state_of nothing }
    {
        ParserState::default()
    }
}
