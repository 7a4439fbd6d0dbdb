//! What a trace says.
use melt_model::Op;

/// One line of a program. The lines between `Repeat` and its `End` are a block, which stands for as
/// many copies of itself as `Repeat` says, from 1 to 1,048,576.
#[derive(Clone, Copy, Debug, PartialEq, Eq)]
pub enum Item {
    Op(Op),
    Repeat(u32),
    End,
}
