//! That the laws of events serve threads which share plain words, and that events tie the stale bit to the history.
ghost use Rattle.std.specs.Prelude.{ℕ, Bool, List};
ghost use Rattle.melt_model.specs.declared.history.Entry.{Entry};
ghost use Rattle.melt_scion.specs.State.{Base};
ghost use Rattle.melt_scion.specs.Placed.{Maps};
ghost use Rattle.melt_core.specs.Shared.{Table, SharedLaws};
ghost use Rattle.melt_core.specs.StaleBits.{StaleBitLaws};
ghost use Rattle.melt_core.specs.Views.{View};

/// Does nothing: its contract is a theorem. Of a table of words that no heap has, and of which nothing is known but
/// that they are well formed for some maps, five events keep what stands: told or not, with the entry in the history,
/// and with all that other threads know and own.
pub fn shared_words()
    ensures { (told : Bool) (thread : ℕ) (h : List Entry) (maps : Maps) (base : Base) (old new : Table)
        → SharedLaws told thread h maps base old new }
{}

/// Does nothing: its contract is a theorem. Where the disk tells its words, each event of a core keeps the stale bit of
/// objects tied to the history. With no call in flight, an object lost its bit only if it was passed since the core
/// began, and no bit came to one.
pub fn stale_bits()
    ensures { (began : View) → StaleBitLaws began }
{}
