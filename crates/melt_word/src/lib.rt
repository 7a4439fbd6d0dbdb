//! The encoding of the words of a heap: tagged references, object headers, and home words.
//!
//! Each kind of word has one definition, from values to numbers, and it is injective. So an encoder has no choice, and
//! a decoder accepts exactly the words that some value has. `reference_of` and `shape_of` are for words that are known
//! to be of their kind: they test nothing, since the heap's invariant says which kind each word is of.
//!
//! Start with `reference`: the low two bits are the tag by which a read barrier takes its slow path. A header is told
//! from a clean reference by its lowest bit, which is how a copy leaves a forwarding pointer in the place of a header.
#![tactic(auto)]

pub mod header;
pub mod home;
pub mod reference;

pub use header::{
    BadHeader, Header, Shape, cost, decode_header, encode_header, one_header_per_word, shape_of,
};
pub use home::{BadHome, HomeWord, MAX_SCION, decode_home, encode_home, one_home_per_word};
pub use melt_model::MAX_PARTS;
pub use reference::{
    BadWord, MAX_ADDRESS, Ref, decode_ref, encode_ref, forwarded_to, held_word, one_ref_per_word,
    reference_of,
};
