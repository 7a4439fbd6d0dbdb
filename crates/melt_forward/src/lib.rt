//! The forwarding words: a hash table with open addressing, from homes of objects to their addresses.
//!
//! A word has both, so one store makes an object known, and a word that is filled never changes while calls run. No
//! thread then needs a lock to search: what it read stays true. An empty word ends a search since no word before that
//! of a home is empty in the order of that home (`HaveNoGaps`), and nothing is ever deleted in an epoch.
//!
//! Start with `find`. The order of places is `place_of`, which code that reads shared words computes too.
#![tactic(auto)]

pub mod forwarding;

pub use forwarding::{Found, find, pack, place_of, unpack};
