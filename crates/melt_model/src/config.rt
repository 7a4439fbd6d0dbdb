//! The numbers that a run is given.

/// What a run is given beside its trace. `heap`, `forward` and `disk` count words, `mark` and `move_` are parts of a
/// hundred, and `every` is 0 where no collection comes by the number of an operation.
#[derive(Clone, Copy, Debug, PartialEq, Eq)]
pub struct Config {
    /// From 16 to 4,194,304.
    pub heap: u32,
    /// From 1 to 65,536.
    pub forward: u32,
    /// From 2 to 268,435,456.
    pub disk: u32,
    /// From 0 to 100, and not above `move_`.
    pub mark: u32,
    /// From 0 to 100.
    pub move_: u32,
    /// From 0 to 1,048,576.
    pub every: u32,
}
