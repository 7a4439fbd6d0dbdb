//! The format of moved objects on a disk: encoders of records, and decoders that take nothing on trust.
//!
//! A record is a Body, the object itself, or a Stub, what is left of it on disk when it is back. Its first two words
//! name its home, its shape and its kind, so a word that was written for another place is found out there. A decoder
//! gets what a disk gave, which may be anything: it accepts exactly the words that an encoder writes, and else answers
//! the first word that cannot stand there.
//!
//! Start with `head`; `docs/FORMATS.md` has the layout.
#![tactic(auto)]

pub mod damage;
pub mod encode;
pub mod head;
pub mod slots;

pub use damage::Damaged;
pub use encode::{body_is_read, encode_body, encode_stub, stub_is_read};
pub use head::{Head, Kind, decode_head, one_head};
pub use slots::decode_rest;
