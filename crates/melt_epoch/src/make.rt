//! How a thread makes an object: it claims words, fills them, and stores the header.
ghost use Rattle.std.specs.Prelude.{◌≡◌, ◌-◌, Some};
ghost use Rattle.melt_word.specs.Words.{IsShape, cost_of};
ghost use Rattle.melt_word.specs.declared.header.Shape.{Shape as ShapeIs};
ghost use Rattle.melt_rule.specs.Tells.{Sees};
ghost use Rattle.melt_rule.specs.Seats.{IsSeat, knows_of};
ghost use Rattle.melt_rule.specs.declared.view.Doing.TheVariants.{Claimed};
ghost use Rattle.melt_epoch.specs.Calls.{FillsRegion, Makes};
ghost use Rattle.melt_epoch.specs.Mutators.{IsIdle};

use melt_core::{Pause, Refusal};
use melt_rule::{Seated, Words};
use melt_word::{Shape, cost};

/// Makes an object of this shape, and answers its address.
pub(crate) fn make_object(words: &Words, seat: &mut Seated, shape: Shape) -> Result<u32, Refusal>
    requires seat { IsIdle words.now seat.old }
    requires shape { IsShape shape }
    ensures seat { IsIdle words.now seat.new }
    ensures makes { Makes (knows_of seat.old) (knows_of seat.new) shape result }
{
    if words.poll(seat) {
        return Err(Refusal::Pause(Pause::Asked));
    }
    let need = cost(shape);
    let Some(address) = words.claim(seat, need) else {
        words.stop(seat);
        return Err(Refusal::Pause(Pause::Space { need }));
    };
    fill(words, seat, address, need);
    words.publish(seat, address, shape);
    Ok(address)
}

/// Stores 0 into each word of the own region after its first.
fn fill(words: &Words, seat: &mut Seated, address: u32, cost: u32)
    requires seat { IsSeat words.now seat.old }
    requires region { (z : ShapeIs) × ((knows_of seat.old).doing ≡ Some (Claimed address z 0)) × (cost_of z ≡ cost) }
    requires sound { Sees (knows_of seat.old) (knows_of seat.old).seen }
    ensures seat { IsSeat words.now seat.new }
    ensures fills { FillsRegion (knows_of seat.old) (knows_of seat.new) address (cost - 1) }
{
    for k in 0..cost - 1 {
        words.fill(seat, address, k);
    }
}
