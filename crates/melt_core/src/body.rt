//! How a copy of a Body is made: words are claimed as for a new object, and stored while they belong to one thread.
//!
//! The header is stored last here too, but makes no object: that is done by the forwarding word, in one exchange.
ghost use Rattle.std.specs.Prelude.{◌≡◌, ◌<◌, ◌≤◌, length, Some};
ghost use Rattle.melt_word.specs.Words.{IsDiskHome, IsShape, cost_of};
ghost use Rattle.melt_scion.specs.Commits.{copy_word};
ghost use Rattle.melt_core.specs.Advances.{MakesEvent, MayMakeEvent};
ghost use Rattle.melt_core.specs.Views.{rest_of, stage_of, view};

use crate::answer::StepResult;
use crate::call::{Activation, Search, Stage};
use crate::machine::Core;
use melt_model::Op;
use melt_word::{Header, HomeWord, Shape, cost, encode_header, encode_home};

impl Core {
    /// Claims the words for a copy of the Body that was read.
    pub(crate) fn claim_copy(
        &mut self,
        thread: u32,
        op: Op,
        search: Search,
        shape: Shape,
    ) -> StepResult
        requires asks { MayMakeEvent (view self.old) thread op }
        requires stage { stage_of (view self.old) thread ≡ Some (Stage.BodyRead search shape) }
        ensures { MakesEvent (view self.old) (view self.new) thread op result }
    {
        let stage = match self.claim_words(cost(shape)) {
            Some(address) => Stage::Copying {
                activation: Activation {
                    search,
                    address,
                    shape,
                },
                stored: 0,
            },
            None => Stage::LackingCopy { search, shape },
        };
        self.set_stage(thread, op, stage);
        StepResult::Going
    }

    /// A word of a copy after its header: the home word, which has no scion yet, and then the words that were read.
    fn word_of_copy(&self, thread: u32, activation: Activation, k: u32) -> u64
        requires thread { thread < length (view self.now).records }
        requires home { IsDiskHome activation.search.home }
        requires small { IsShape activation.shape }
        requires first { 1 ≤ k }
        requires last { k < cost_of activation.shape }
        ensures { result ≡ copy_word activation.search.home activation.shape (rest_of (view self.now) thread) k }
    {
        if k == 1 {
            return encode_home(Some(HomeWord {
                home: activation.search.home,
                scion: 0,
            }));
        }
        self.rest.records[thread as usize][k as usize - 2]
    }

    /// Stores the next word of a copy, the header last.
    pub(crate) fn store_copy(
        &mut self,
        thread: u32,
        op: Op,
        activation: Activation,
        stored: u32,
    ) -> StepResult
        requires asks { MayMakeEvent (view self.old) thread op }
        requires stage { stage_of (view self.old) thread ≡ Some (Stage.Copying activation stored) }
        ensures { MakesEvent (view self.old) (view self.new) thread op result }
    {
        let Activation { address, shape, .. } = activation;
        let next = stored + 1;
        let stage = if next < cost(shape) {
            let word = self.word_of_copy(thread, activation, next);
            self.set_word(address + next, word);
            Stage::Copying {
                activation,
                stored: next,
            }
        } else {
            let header = Header {
                shape,
                stale: false,
            };
            // Last, as for a new object: until then the words belong to no object.
            self.set_word(address, encode_header(header));
            Stage::Copied { activation }
        };
        self.set_stage(thread, op, stage);
        StepResult::Going
    }
}
