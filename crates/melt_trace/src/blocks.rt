//! The blocks that are open at a place of a program.
ghost use Rattle.std.specs.Prelude.{◌≡◌, ◌<◌, [], ◌∷◌, length};
ghost use Rattle.melt_trace.specs.Cursor.{block_end};

use std::marker::Model;

/// How deep blocks can stand in one another.
const MAX_OPEN: usize = 4;

/// An open block: the place of its first line, and how often it is still to come once it ends.
#[derive(Clone, Copy)]
pub struct Block {
    pub start: usize,
    pub turns: u32,
}

/// The open blocks, of which the last is the innermost.
#[derive(Drop)]
pub struct OpenBlocks {
    depth: usize,
    blocks: [Block; MAX_OPEN],
}

impl Model for OpenBlocks {
    ghost use Rattle.std.specs.Prelude.{List, ◌≤◌, reverse, take};
    ghost use Rattle.melt_trace.specs.declared.blocks.Block.{Block};

    ghost Value = { List Block };

    ghost view = { λ all. reverse (take all.depth all.blocks) };

    ghost invariant = { λ all. all.depth ≤ 4 };
}

impl OpenBlocks {
    pub fn new() -> OpenBlocks
        ensures { result ≡ [] }
    {
        OpenBlocks {
            depth: 0,
            blocks: [Block { start: 0, turns: 0 }; MAX_OPEN],
        }
    }

    /// Opens a block in the innermost one.
    pub fn enter(&mut self, block: Block)
        requires { length self.old < 4 }
        ensures { self.new ≡ block ∷ self.old }
    {
        self.blocks[self.depth] = block;
        self.depth += 1;
    }

    /// Ends the innermost block. If it is to come again, this is the place of its first line.
    pub fn end(&mut self) -> Option<usize>
        requires { 0 < length self.old }
        ensures start { result ≡ (block_end self.old).0 }
        ensures after { self.new ≡ (block_end self.old).1 }
    {
        let innermost = self.depth - 1;
        let Block { start, turns } = self.blocks[innermost];
        if turns == 0 {
            self.depth = innermost;
            return None;
        }
        self.blocks[innermost] = Block {
            start,
            turns: turns - 1,
        };
        Some(start)
    }
}
