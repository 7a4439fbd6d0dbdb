//! Where a word lies: on which of the disks, and at which place there.
ghost use Rattle.std.specs.Prelude.{◌≡◌, ℕ, ◌-◌, ◌%◌, ◌<◌};
ghost use Rattle.melt_stripe.specs.Units.{IsOneToOne, disk_of, place_of};

/// How many words that follow one another lie on one disk.
const UNIT: u32 = 64;

/// The disk on which a word lies, of `k`.
pub fn disk_of(k: u32, word: u32) -> u32
    requires { 0 < k }
    ensures { result ≡ disk_of k word }
{
    word / UNIT % k
}

/// The place of a word on its disk.
pub fn place_of(k: u32, word: u32) -> u32
    requires { 0 < k }
    ensures { result ≡ place_of k word }
{
    word / UNIT / k * UNIT + word % UNIT
}

/// How many words of the unit there are from this one on.
pub(crate) fn left_in_unit(word: u32) -> usize
    ensures { result ≡ 64 - word % 64 }
{
    (UNIT - word % UNIT) as usize
}

/// Each word has a place of its own, and each place of each disk is that of a word.
pub fn places_are_one_to_one()
    ensures { (k : ℕ) → 0 < k → IsOneToOne k }
{}
