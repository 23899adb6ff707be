// What the rounds of a job read, worked out once for a call.

ghost use Rattle.std.specs.Prelude.{◌≡◌, ◌^◌, ◌<◌, pos};
ghost use Rattle.stencil.specs.Ends.{BoxEnds};

use model::Terms;
use passes::part::Weights;
use stencil::pixel::Ends;

// A job's terms, the two ends of its box, its samples, and the weights of its pairs, which are the
// terms' where it has none of their own.
#[derive(Clone, Copy)]
pub struct Scan<'a> {
    pub terms: Terms,
    pub ends: Ends,
    pub samples: &'a [u8],
    pub weights: Weights<'a>,
    pub ghost box_ends: { BoxEnds terms ends.low ends.high },
    pub ghost weight_is: { weights.all ≡ pos terms.weight },
}

impl<'a> Scan<'a> {
    pub fn of(t: Terms, samples: &'a [u8], weights: &'a [i32]) -> Scan<'a>
        requires { t.weight < 2 ^ 31 }
        ensures terms { result.terms ≡ t }
        ensures samples { result.samples.now ≡ samples.now }
        ensures weights { result.weights.own.now ≡ weights.now }
    {
        Scan {
            terms: t,
            ends: Ends::of(t),
            samples,
            weights: Weights {
                all: t.weight as i32,
                own: weights,
            },
        }
    }
}
