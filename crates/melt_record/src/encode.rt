//! The words of records.
ghost use Rattle.std.specs.Prelude.{◌≡◌, ℕ, ◌+◌, ◌^◌, ◌≤◌, List, length};
ghost use Rattle.melt_word.specs.Words.{IsDiskHome, IsShape, cost_of};
ghost use Rattle.melt_word.specs.declared.header.Shape.{Shape};
ghost use Rattle.melt_record.specs.Records.{AreSlots, BodyIsRead, IsScion, StubIsRead, body_words, stub_words};

use crate::head::{BODY, HEAD_WORDS, STUB, first_word};
use melt_word::Shape;

/// Writes the Body at `home` of an object of the shape. `slots` has the reference slots and then the
/// number words.
pub fn encode_body(home: u32, shape: Shape, slots: &[u64], out: &mut [u64])
    requires home { IsDiskHome home }
    requires shape { IsShape shape }
    requires slots { length slots.now ≡ shape.refs + shape.nums }
    requires refs { AreSlots (2 ^ 32) shape.refs slots.now }
    requires out { length out.old ≡ cost_of shape }
    ensures { out.new ≡ body_words home shape slots.now }
{
    out[0] = first_word(BODY, home, shape);
    out[1] = 0;
    out[HEAD_WORDS..].copy_from_slice(slots);
}

/// Writes the first two words, which are all that is read, of the Stub at `home` of an object of the
/// shape.
pub fn encode_stub(home: u32, shape: Shape, scion: u32, out: &mut [u64])
    requires home { IsDiskHome home }
    requires shape { IsShape shape }
    requires scion { IsScion scion }
    requires out { length out.old ≡ 2 }
    ensures { out.new ≡ stub_words home shape scion }
{
    out[0] = first_word(STUB, home, shape);
    out[1] = u64::from(scion);
}

/// What is written for a Body is read as its head and its slots, up to the same end.
pub fn body_is_read()
    ensures { (home end : ℕ) (shape : Shape) (slots : List ℕ) →
        IsShape shape → home + cost_of shape ≤ end → AreSlots end shape.refs slots →
        BodyIsRead home end shape (body_words home shape slots) }
{}

/// What is written for a Stub is read as its head.
pub fn stub_is_read()
    ensures { (home end : ℕ) (shape : Shape) (scion : ℕ) →
        IsShape shape → home + cost_of shape ≤ end → IsScion scion →
        StubIsRead home end shape scion (stub_words home shape scion) }
{}
