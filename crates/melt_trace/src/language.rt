//! The words of the trace language, and the places of a trace where a line can stand.

/// The first field of a line after the first three.
#[derive(Clone, Copy, Debug, PartialEq, Eq)]
pub enum Word {
    New,
    Load,
    Store,
    Get,
    Put,
    GLoad,
    GStore,
    Same,
    Copy,
    Drop,
    Collect,
    Repeat,
    End,
    Done,
    Thread,
    Order,
}

/// What is wanted next: one of the first three lines, an order or the first program, a line of a
/// program, the next program, or nothing more.
#[derive(Clone, Copy, Debug, PartialEq, Eq)]
pub enum Expected {
    Version,
    Threads,
    Globals,
    Orders,
    Inside,
    Between,
    Over,
}
