//! One thread's way through its operations.
ghost use Rattle.std.specs.Prelude.{◌≡◌, [], IfSome, slice_get, drop};
ghost use Rattle.melt_trace.specs.Script.{expand};
ghost use Rattle.melt_trace.specs.Grammar.{InRange};
ghost use Rattle.melt_trace.specs.Language.{AreItems};

use crate::blocks::{Block, OpenBlocks};
use crate::script::Item;
use melt_model::Op;
use std::marker::Model;

/// The operations of a thread that are still to come. What is asked after the last one is told `None`.
#[derive(Drop)]
pub struct Cursor<'a> {
    globals: u32,
    items: &'a [Item],
    place: usize,
    open_blocks: OpenBlocks,
}

impl<'a> Model for Cursor<'a> {
    ghost use Rattle.melt_trace.specs.Cursor.{Ahead, left_at, IsUnderway};

    ghost Value = { Ahead };

    ghost view = { λ cursor. record {
      globals = cursor.globals;
      operations = left_at cursor.items.now cursor.open_blocks cursor.place;
    } };

    ghost invariant = { λ cursor. IsUnderway cursor.globals cursor.items.now cursor.open_blocks cursor.place };
}

impl<'a> Cursor<'a> {
    /// The operations of a program, from the first one on.
    pub(crate) fn new(globals: u32, items: &'a [Item]) -> Cursor<'a>
        requires { AreItems globals [] items.now }
        ensures rest { result.operations ≡ expand items.now }
        ensures globals { result.globals ≡ globals }
    {
        Cursor {
            globals,
            items,
            place: 0,
            open_blocks: OpenBlocks::new(),
        }
    }
}

impl Cursor<'_> {
    /// The next operation. It takes the same time wherever the cursor is: between two operations lie at
    /// most four ends of blocks and four beginnings, since each block has an operation.
    pub fn next(&mut self) -> Option<Op>
        ensures operation { result ≡ slice_get self.old.operations 0 }
        ensures rest { self.new.operations ≡ drop 1 self.old.operations }
        ensures globals { self.new.globals ≡ self.old.globals }
        ensures in_range { IfSome result (InRange self.old.globals) }
    {
        loop {
            match *self.items.get(self.place)? {
                Item::Op(op) => {
                    self.place += 1;
                    return Some(op);
                }
                Item::Repeat(turns) => {
                    self.place += 1;
                    self.open_blocks.enter(Block {
                        start: self.place,
                        turns: turns - 1,
                    });
                }
                Item::End => self.place = self.open_blocks.end().unwrap_or(self.place + 1),
            }
        }
    }
}
