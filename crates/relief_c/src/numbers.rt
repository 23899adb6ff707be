// An answer of price, check or run as plain numbers, which the functions for other languages hand out: a number for each
// refusal and for each outcome is what include/relief.h declares.

ghost use Rattle.model.specs.Answers.{answer_of};
ghost use Rattle.model.specs.Plain.{AnswerNumbers};

use model::{Ending, Refusal};

#[derive(Clone, Copy, Debug, Default, PartialEq, Eq)]
pub struct Numbers {
    pub number: u32,
    pub place: u64,
    pub outcome: u32,
    pub moved: u32,
    pub price: u64,
    pub floor: i64,
    pub slack: u64,
}

impl Numbers {
    // Zeros but for number and place where the call was refused.
    pub fn of(answer: Result<Ending, Refusal>) -> Numbers
        ensures { AnswerNumbers result.number result.place result.outcome result.moved result.price result.floor result.slack (answer_of answer) }
    {
        let (outcome, moved, figures) = match answer {
            Err(refusal) => {
                return Numbers {
                    number: refusal.reason.number(),
                    place: refusal.place as u64,
                    ..Numbers::default()
                };
            }
            Ok(Ending::Checked { figures }) => (1, 0, figures),
            Ok(Ending::Settled { moved, figures }) => (2, moved, figures),
            Ok(Ending::Spent { moved, figures }) => (3, moved, figures),
        };
        Numbers {
            number: 0,
            place: 0,
            outcome,
            moved,
            price: figures.price,
            floor: figures.floor,
            slack: figures.slack,
        }
    }
}
