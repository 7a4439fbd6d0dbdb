//! That it does not matter which thread takes the next event, nor where collections come.
ghost use Rattle.std.specs.Prelude.{List, Option, ℕ};
ghost use Rattle.melt_core.specs.Views.{View};
ghost use Rattle.melt_step.specs.Choices.{AreTold, Chosen, SoFar};

/// Does nothing: its contract is a theorem. Whatever is chosen, event by event and with planned collections of any
/// phase wherever no call is in flight, all threads stand in one legal history, with the replies that they have by
/// then. Objects may go to a disk and come back; the disk tells its words after each collection, and a reader tells the
/// same ones. Of the machine it takes nothing but the public contracts of the core and of the planned collection.
pub fn any_choices()
    ensures { (threads globals end : ℕ) (image : Option (List ℕ)) (v : View) (all : ℕ → SoFar)
        → Chosen threads globals end image v all → AreTold threads globals end image v all }
{}
