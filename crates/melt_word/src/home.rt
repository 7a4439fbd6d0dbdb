//! Home words: the word of each object that holds its home on disk and its scion.
ghost use Rattle.std.specs.Prelude.{◌≡◌, ◌≢◌, Option, IfOk, OnErr};
ghost use Rattle.melt_word.specs.Words.{IsHome, home_word};
ghost use Rattle.melt_word.specs.declared.home.HomeWord.{HomeWord};

use thiserror::Error;

/// The greatest scion.
pub const MAX_SCION: u32 = (1 << 30) - 1;

const HOME_SHIFT: u32 = 32;

const SCION_SHIFT: u32 = 2;

const SCION_MASK: u64 = MAX_SCION as u64;

const CLEAR_MASK: u64 = (1 << SCION_SHIFT) - 1;

/// The home of an object on disk, and its scion.
#[derive(Clone, Copy, Debug, PartialEq, Eq)]
pub struct HomeWord {
    /// From 1 to `u32::MAX`.
    pub home: u32,
    /// From 0, which says that there is no stub yet, to `MAX_SCION`.
    pub scion: u32,
}

/// The word is that of no home: it is not 0, and its home is 0 or one of its two lowest bits is set.
#[derive(Clone, Copy, Debug, PartialEq, Eq, Error)]
#[error("bad home word")]
pub struct BadHome;

/// The word of a home, 0 for none.
pub fn encode_home(home: Option<HomeWord>) -> u64
    requires { IsHome home }
    ensures { result ≡ home_word home }
{
    match home {
        None => 0,
        Some(HomeWord { home, scion }) => {
            (u64::from(home) << HOME_SHIFT) | (u64::from(scion) << SCION_SHIFT)
        }
    }
}

/// The home that a word holds, if it holds one.
pub fn decode_home(word: u64) -> Result<Option<HomeWord>, BadHome>
    ensures ok { IfOk result (λ h. IsHome h × (word ≡ home_word h)) }
    ensures err { OnErr result ((h : Option HomeWord) → IsHome h → word ≢ home_word h) }
{
    if word == 0 {
        return Ok(None);
    }
    let home = (word >> HOME_SHIFT) as u32;
    let scion = ((word >> SCION_SHIFT) & SCION_MASK) as u32;
    if home == 0 || word & CLEAR_MASK != 0 {
        return Err(BadHome);
    }
    Ok(Some(HomeWord { home, scion }))
}

/// A word holds one home at most.
pub fn one_home_per_word()
    ensures { (h k : Option HomeWord) → IsHome h → IsHome k → home_word h ≡ home_word k → h ≡ k }
{}
