// Price judges an image.

ghost use Rattle.std.specs.Prelude.{◌≡◌, ◌↔◌};
ghost use Rattle.model.specs.Calls.{price_answer};
ghost use Rattle.model.specs.Accepted.{PriceAllowed};
ghost use Rattle.model.specs.Plain.{terms_of, AnswerNumbers};

use crate::numbers::Numbers;
use calls::price::price as price_image;
use model::Terms;

#[unsafe(no_mangle)]
pub extern "C" fn relief_call_price(
    width: u32,
    height: u32,
    weight: u32,
    low: u8,
    high: u8,
    samples: &[u8],
    weights: &[i32],
    image: &[i32],
    place: &mut u64,
    outcome: &mut u32,
    moved: &mut u32,
    price: &mut u64,
    floor: &mut i64,
    slack: &mut u64,
) -> u32
    ensures answer_numbers { AnswerNumbers result place.new outcome.new moved.new price.new floor.new slack.new (price_answer (terms_of width height weight low high) samples.now weights.now image.now) }
    ensures accepted { (result ≡ 0) ↔ PriceAllowed (terms_of width height weight low high) samples.now weights.now image.now }
{
    let t = Terms {
        width,
        height,
        weight,
        low,
        high,
    };
    let n = Numbers::of(price_image(t, samples, weights, image));
    *place = n.place;
    *outcome = n.outcome;
    *moved = n.moved;
    *price = n.price;
    *floor = n.floor;
    *slack = n.slack;
    n.number
}
