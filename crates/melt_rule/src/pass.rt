//! The history of a run from epoch to epoch.
ghost use Rattle.std.specs.Prelude.{◌≡◌, [], List};
ghost use Rattle.melt_model.specs.declared.history.Entry.{Entry};

use melt_model::{Entry, Ghost};
use std::collections::LinkedList;
use std::marker::Model;

/// The token of a run's history. It takes no bytes: within an epoch the history stands in the views of its seats, and
/// from one epoch to the next it stands here.
#[derive(Debug, Drop)]
pub struct Pass {
    history: Ghost<LinkedList<Entry>>,
}

impl Model for Pass {
    ghost use Rattle.std.specs.Prelude.{List};
    ghost use Rattle.melt_model.specs.declared.history.Entry.{Entry};

    ghost Value = { List Entry };

    ghost view = { λ pass. pass.history };
}

impl Pass {
    /// The pass of a run that has not begun.
    pub fn new() -> Pass
        ensures { result ≡ [] }
    {
        Pass {
            history: Ghost::pick(&()),
        }
    }

    /// The pass after an epoch, with the history that a caller's proof picks from what `from` shows.
    pub fn note<U>(&mut self, from: &U)
        ghost history: { List Entry }
        ensures { self.new ≡ history }
    {
        self.history = Ghost::pick(from);
    }
}
