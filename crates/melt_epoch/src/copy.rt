//! How a copy of a Body comes into use: words are claimed for it and filled, and then a forwarding word is asked for.
ghost use Rattle.std.specs.Prelude.{◌≡◌, ℕ, ◌+◌, ◌<◌, ◌≤◌, false, length, Some};
ghost use Rattle.melt_word.specs.Words.{IsDiskHome, IsShape, cost_of};
ghost use Rattle.melt_scion.specs.Commits.{HasBody, copy_word};
ghost use Rattle.melt_rule.specs.Rule.{has_cause};
ghost use Rattle.melt_rule.specs.Seats.{IsSeat, knows_of};
ghost use Rattle.melt_rule.specs.Shown.{base_at};
ghost use Rattle.melt_rule.specs.declared.view.Doing.TheVariants.{Copying, Missed};
ghost use Rattle.melt_epoch.specs.Bringing.{Copies, IsFilled};

use crate::bring::commit_copy;
use melt_core::call::{Activation, Search};
use melt_core::{Pause, Refusal};
use melt_rule::{Seated, Words};
use melt_word::{HomeWord, Shape, cost, encode_home};

/// A word of a copy after its header: the home word, which has no scion yet, and then the words that were read.
fn word_of_copy(home: u32, shape: Shape, rest: &[u64], k: u32) -> u64
    requires home { IsDiskHome home }
    requires rest { length rest.now ≡ shape.refs + shape.nums }
    requires first { 1 ≤ k }
    requires last { k < cost_of shape }
    ensures { result ≡ copy_word home shape rest.now k }
{
    if k == 1 {
        return encode_home(Some(HomeWord { home, scion: 0 }));
    }
    rest[k as usize - 2]
}

/// Stores all words of a copy after its header.
fn fill_copy(words: &Words, seat: &mut Seated, activation: Activation, rest: &[u64])
    requires seat { IsSeat words.now seat.old }
    requires copying { (knows_of seat.old).doing ≡ Some (Copying activation 0) }
    requires rest { (knows_of seat.old).rest ≡ rest.now }
    requires length { length rest.now ≡ activation.shape.refs + activation.shape.nums }
    ensures seat { IsSeat words.now seat.new }
    ensures fills { IsFilled (knows_of seat.old) (knows_of seat.new) activation }
{
    let Activation { search, shape, .. } = activation;
    for stored in 0..cost(shape) - 1 {
        let word = word_of_copy(search.home, shape, rest, stored + 1);
        words.fill_copy(seat, activation, stored, word);
    }
}

/// Makes a copy of a Body, of this shape and with these words after its head, which was read at the home that is
/// searched for; and answers the address of the object of that home. Where there is no room for the copy, it sets the
/// stop word.
pub(crate) fn copy_in(
    words: &Words,
    seat: &mut Seated,
    forwards: u32,
    search: Search,
    shape: Shape,
    rest: &[u64],
) -> Result<u32, Refusal>
    requires seat { IsSeat words.now seat.old }
    requires missed { (knows_of seat.old).doing ≡ Some (Missed search) }
    requires no_cause { has_cause (knows_of seat.old) ≡ false }
    requires forwards { forwards ≡ words.now.start.began.forwards }
    requires body { HasBody words.now.start.began.told (base_at words.now.start.began) search.home shape rest.now }
    requires length { length rest.now ≡ shape.refs + shape.nums }
    ensures seat { IsSeat words.now seat.new }
    ensures own { (knows_of seat.new).mine ≡ (knows_of seat.new).seen }
    ensures copies { Copies (knows_of seat.old) (knows_of seat.new) search shape forwards result }
{
    let Some(address) = words.claim_copy(seat, search, shape, rest) else {
        words.stop(seat);
        return Err(Refusal::Pause(Pause::Space { need: cost(shape) }));
    };
    let activation = Activation {
        search,
        address,
        shape,
    };
    fill_copy(words, seat, activation, rest);
    words.head_copy(seat, activation);
    commit_copy(words, seat, forwards, activation)
}
