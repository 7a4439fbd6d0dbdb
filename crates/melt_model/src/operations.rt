//! What a thread asks of the heap, and what it is told.
use std::marker::Model;

/// The most reference slots, and the most number words, that an object may have.
pub const MAX_PARTS: u8 = 62;

/// One operation of a thread. `dst`, `src`, `obj`, `a`, `b` and `r` are registers, from 0 to 15;
/// `i` is a reference slot and `j` a number word of an object; `g` is a global.
#[derive(Clone, Copy, Debug, PartialEq, Eq)]
pub enum Op {
    New { dst: u8, refs: u8, nums: u8 },
    Load { dst: u8, src: u8, i: u8 },
    Store { obj: u8, i: u8, src: u8 },
    Get { src: u8, j: u8 },
    Put { obj: u8, j: u8, v: u64 },
    GLoad { dst: u8, g: u8 },
    GStore { g: u8, src: u8 },
    Same { a: u8, b: u8 },
    Copy { dst: u8, src: u8 },
    Drop { r: u8 },
    Collect,
}

/// What a thread is told of one operation.
#[derive(Clone, Copy, Debug, PartialEq, Eq)]
pub enum Reply {
    Done,
    Null,
    Ref,
    Num(u64),
    Yes,
    No,
    Nil,
    Range,
}

/// The replies to a thread, in the order of its operations.
#[derive(Debug, Drop)]
pub struct Replies {
    pub items: Vec<Reply>,
}

impl Model for Replies {
    ghost use Rattle.std.specs.Prelude.{List};
    ghost use Rattle.melt_model.specs.declared.operations.Reply.{Reply};

    ghost Value = { List Reply };

    ghost view = { λ replies. replies.items.items };
}
