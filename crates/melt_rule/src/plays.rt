//! What each kind of step tells its thread.
ghost use Rattle.melt_rule.specs.Plays.{HeadPlay, LookPlay, GlobalLookPlay, NumberPlay, PollPlay};
ghost use Rattle.melt_rule.specs.Plays.{AskPlay, StopPlay};
ghost use Rattle.melt_rule.specs.Plays.{StorePlay, GlobalStorePlay, NumberStorePlay};

use crate::view::View;
use atomic_table::Play;

/// A load of the stop word.
pub(crate) struct Poll;

impl Play<u64, View> for Poll {
    ghost then = { PollPlay };
}

/// A load of the header of an object.
pub(crate) struct LoadHeader;

impl Play<u64, View> for LoadHeader {
    ghost then = { HeadPlay };
}

/// A load of a reference slot of an object.
pub(crate) struct LoadSlot;

impl Play<u64, View> for LoadSlot {
    ghost then = { LookPlay };
}

/// A load of a global.
pub(crate) struct LoadGlobal;

impl Play<u64, View> for LoadGlobal {
    ghost then = { GlobalLookPlay };
}

/// A load of a number word of an object.
pub(crate) struct LoadNumber;

impl Play<u64, View> for LoadNumber {
    ghost then = { NumberPlay };
}

/// A store into a reference slot of an object.
pub(crate) struct StoreSlot;

impl Play<u64, View> for StoreSlot {
    ghost then = { StorePlay };
}

/// A store into a global.
pub(crate) struct StoreGlobal;

impl Play<u64, View> for StoreGlobal {
    ghost then = { GlobalStorePlay };
}

/// A store into a number word of an object.
pub(crate) struct StoreNumber;

impl Play<u64, View> for StoreNumber {
    ghost then = { NumberStorePlay };
}

/// A store of 1 into the stop word, by a seat that has a cause.
pub(crate) struct SetStop;

impl Play<u64, View> for SetStop {
    ghost then = { StopPlay };
}

/// A store of 1 into the stop word, by which the seat has a cause.
pub(crate) struct Ask;

impl Play<u64, View> for Ask {
    ghost then = { AskPlay };
}
