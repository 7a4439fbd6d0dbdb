//! Forwarding words, and the search for the word of a home. No two pairs of a home and an address have the same word,
//! so a word tells its pair by its parts alone. The search for a home starts at a place of its own, and whoever fills a
//! word fills the first empty one that the search for its home comes to; so the search ends at the first empty word.
ghost use Rattle.std.specs.Prelude.{◌≡◌, ◌<◌, ◌^◌, length, MatchOption};
ghost use Rattle.melt_word.specs.Words.{IsAddress, IsDiskHome};
ghost use Rattle.melt_forward.specs.Forwarding.{AreForwarding, Finds, HaveNoGaps, IsForwarding, Sends};
ghost use Rattle.melt_forward.specs.Forwarding.{forward_word, probe};

use melt_word::MAX_ADDRESS;

const HOME_SHIFT: u32 = 32;

const ADDRESS_SHIFT: u32 = 2;

const ADDRESS_MASK: u64 = MAX_ADDRESS as u64;

/// What a home is multiplied by for the start of its search, modulo 2^32: that number over the golden ratio, made odd.
const SPREAD: u32 = 2_654_435_769;

/// What the search for a home finds.
#[derive(Clone, Copy, Debug, PartialEq, Eq)]
pub enum Found {
    /// A word sends the home to this address.
    At(u32),
    /// No word sends the home, and this place is the first empty one.
    Empty(u32),
    /// No word sends the home, and none is empty.
    Full,
}

/// The word that sends a home, from 1 on, to an address, from 1 to `MAX_ADDRESS`.
pub fn pack(home: u32, address: u32) -> u64
    requires home { IsDiskHome home }
    requires address { IsAddress address }
    ensures { result ≡ forward_word home address }
{
    (u64::from(home) << HOME_SHIFT) | (u64::from(address) << ADDRESS_SHIFT)
}

/// The home and the address that a word sends, which is 0 or made by `pack`. One that is 0 sends none.
pub fn unpack(word: u64) -> Option<(u32, u32)>
    requires { IsForwarding word }
    ensures { MatchOption result (word ≡ 0) (λ pair. Sends word pair.0 pair.1) }
{
    if word == 0 {
        return None;
    }
    let address = (word >> ADDRESS_SHIFT) & ADDRESS_MASK;
    Some(((word >> HOME_SHIFT) as u32, address as u32))
}

/// The place that the search for a home tries after `tried` others, among so many words. It starts where the home says,
/// and goes on upwards and from the last place to place 0, so that it tries each place once.
pub fn place_of(home: u32, tried: u32, count: usize) -> usize
    requires { tried < count }
    ensures place { result ≡ probe home count tried }
    ensures within { result < count }
{
    let start = home.wrapping_mul(SPREAD) as usize % count;
    let before_the_end = count - start;
    let tried = tried as usize;
    if tried < before_the_end {
        start + tried
    } else {
        tried - before_the_end
    }
}

/// Searches a home, from 1 on, among fewer than 2^32 words, each 0 or made by `pack`, of which none before one that
/// sends a home is empty in the order of that home. Where two of them send the home, it is found at the address of the
/// first in that order.
///
/// It is a whole search at once, for a heap that nothing changes meanwhile. A load reads one word in each of its events.
pub fn find(words: &[u64], home: u32) -> Found
    requires home { IsDiskHome home }
    requires few { length words.now < 2 ^ 32 }
    requires words { AreForwarding words.now }
    requires no_gaps { HaveNoGaps words.now }
    ensures { Finds words.now home result }
{
    for tried in 0..words.len() as u32 {
        let place = place_of(home, tried, words.len());
        match unpack(words[place]) {
            None => return Found::Empty(place as u32),
            Some((sent, address)) if sent == home => return Found::At(address),
            Some(_) => {}
        }
    }
    Found::Full
}
