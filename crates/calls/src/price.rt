// Price judges an image.

ghost use Rattle.std.specs.Prelude.{◌≡◌, ◌↔◌};
ghost use Rattle.model.specs.Calls.{price_answer};
ghost use Rattle.model.specs.Accepted.{PriceAllowed};
ghost use Rattle.model.specs.Answers.{answer_of};

use crate::figures;
use model::{Ending, Figures, Refusal, Terms};
use stencil::pixel::Ends;

pub fn price(t: Terms, samples: &[u8], weights: &[i32], image: &[i32]) -> Result<Ending, Refusal>
    ensures result_value { answer_of result ≡ price_answer t samples.now weights.now image.now }
    ensures accepted { ((answer_of result).number ≡ 0) ↔ PriceAllowed t samples.now weights.now image.now }
{
    let ends = Ends::of(t);
    validation::judge_price(t, ends, samples.len(), weights, image)?;
    let price = figures::image_price(t, samples, weights, image);
    let figures = Figures {
        price,
        floor: 0,
        slack: 0,
    };
    Ok(Ending::Checked { figures })
}
