//! The steps of a call that makes an object: it claims words, fills all but the first, and stores the header into the
//! first. Until then the words are its own, and the object is in no history.
ghost use Rattle.std.specs.Prelude.{◌≡◌, ℕ, ◌+◌, ◌<◌, ◌≤◌, false, Some};
ghost use Rattle.melt_word.specs.Words.{IsShape, cost_of};
ghost use Rattle.melt_word.specs.declared.header.Shape.{Shape};
ghost use Rattle.melt_rule.specs.Making.{ClaimPlay, FillPlay, PublishPlay, ClaimTells, HasRegion, Makes};
ghost use Rattle.melt_rule.specs.Rule.{has_cause};
ghost use Rattle.melt_rule.specs.Seats.{IsSeat, knows_of};
ghost use Rattle.melt_rule.specs.Tells.{Reaches};
ghost use Rattle.melt_rule.specs.declared.view.Doing.TheVariants.{Claimed, Polled};

use crate::view::View;
use crate::words::{FREE_AT, Seated, Words};
use atomic_table::Play;
use melt_word::{Header, Shape, encode_header};

/// A claim of words at the first free place.
pub(crate) struct Claim;

impl Play<u64, View> for Claim {
    ghost then = { ClaimPlay };
}

/// A store of 0 into a word of the own region, after its first.
pub(crate) struct Fill;

impl Play<u64, View> for Fill {
    ghost then = { FillPlay };
}

/// A store of a header into the first word of the own region.
pub(crate) struct Publish;

impl Play<u64, View> for Publish {
    ghost then = { PublishPlay };
}

impl Words {
    /// Claims so many words for a new object, and answers the address of the first. Where they end past the last word
    /// it answers none, and the thread has a cause to stop.
    pub fn claim(&self, seat: &mut Seated, cost: u32) -> Option<u32>
        requires seat { IsSeat self.now seat.old }
        requires polled { (knows_of seat.old).doing ≡ Some Polled }
        requires no_cause { has_cause (knows_of seat.old) ≡ false }
        requires cost { (2 ≤ cost) × (cost ≤ 126) }
        ensures seat { IsSeat self.now seat.new }
        ensures tells { ClaimTells (knows_of seat.old) (knows_of seat.new) cost result }
    {
        let need = u64::from(cost);
        let found = self.table.shared.fetch_add::<Claim>(seat, FREE_AT, need);
        if found + need > u64::from(self.size) + 1 {
            return None;
        }
        Some(found as u32)
    }

    /// Stores 0 into the next word of the own region, where `k` words after the first are filled.
    pub fn fill(&self, seat: &mut Seated, address: u32, k: u32)
        requires seat { IsSeat self.now seat.old }
        requires region { HasRegion (knows_of seat.old) address (λ z stored. (stored ≡ k) × (k + 1 < cost_of z)) }
        ensures seat { IsSeat self.now seat.new }
        ensures fills { (z : Shape) → (knows_of seat.old).doing ≡ Some (Claimed address z k)
            → Reaches (knows_of seat.old) (knows_of seat.new) (Some (Claimed address z (k + 1))) }
    {
        let at = self.before + address as usize + 1 + k as usize;
        self.table.shared.store::<Fill>(seat, at, 0);
    }

    /// Stores the header of a new object of this shape into the first word of the own region, whose other words are
    /// filled.
    pub fn publish(&self, seat: &mut Seated, address: u32, shape: Shape)
        requires seat { IsSeat self.now seat.old }
        requires region { HasRegion (knows_of seat.old) address
            (λ z stored. (stored + 1 ≡ cost_of z) × (cost_of z ≡ cost_of shape)) }
        requires shape { IsShape shape }
        ensures seat { IsSeat self.now seat.new }
        ensures makes { Makes (knows_of seat.old) (knows_of seat.new) address shape }
    {
        let header = encode_header(Header {
            shape,
            stale: false,
        });
        self.table
            .shared
            .store::<Publish>(seat, self.before + address as usize, header);
    }
}
