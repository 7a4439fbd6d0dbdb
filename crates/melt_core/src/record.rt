//! Reads of a record, in a load that no forwarding word helped.
//!
//! Nothing that is read is trusted: what a record cannot say is found, and ends the call. Where the disk returns what
//! was written, it is never found.
ghost use Rattle.std.specs.Prelude.{◌≡◌, ℕ, ◌<◌, length, slice_index, IfErr, IfOk, None, Some};
ghost use Rattle.melt_record.specs.declared.damage.Damaged.{Damaged as DamagedRecord};
ghost use Rattle.melt_record.specs.declared.head.Head.{Head as RecordHead};
ghost use Rattle.melt_record.specs.Records.{IsHead};
ghost use Rattle.melt_scion.specs.Heaps.{OnDisk};
ghost use Rattle.melt_core.specs.Advances.{Advances, Breaks, IsDamage, MayAdvance, NamesNoScion, Uses};
ghost use Rattle.melt_core.specs.Changed.{with_call};
ghost use Rattle.melt_core.specs.Stages.{ReadAs, body_stage};
ghost use Rattle.melt_core.specs.Views.{stage_of, state, view};

use crate::answer::{Refusal, StepResult};
use crate::call::{Search, Stage};
use crate::machine::Core;
use melt_io::RecordReader;
use melt_model::Op;
use melt_record::{Damaged, Head, Kind, decode_head, decode_rest};
use melt_word::{Ref, Shape};

/// The stage after the head of a Body: without slots and numbers it is read whole.
fn stage_after_head(search: Search, shape: Shape) -> Stage
    ensures { result ≡ body_stage search shape }
{
    if shape.refs == 0 && shape.nums == 0 {
        return Stage::BodyRead { search, shape };
    }
    Stage::HeadRead { search, shape }
}

impl Core {
    /// Ends a call that read the disk.
    fn lose(&mut self, thread: u32, refusal: Refusal) -> StepResult
        requires { thread < length (view self.old).calls }
        ensures over { view self.new ≡ with_call (view self.old) thread None }
        ensures refused { result ≡ StepResult.Refused refusal }
    {
        self.set_call(thread, None);
        StepResult::Refused(refusal)
    }

    /// What the head of a record tells of the object of its home: how its load goes on.
    fn stage_after(&self, search: Search, head: Head) -> Result<Stage, Damaged>
        ensures stage { (disk : OnDisk)
            → IfOk result (ReadAs (state disk (view self.now)) search head.shape head.kind) }
        ensures damage { (end first second : ℕ) → IsHead search.home end first second head
            → IfErr result (NamesNoScion (view self.now).scions search.home end first second) }
    {
        match head.kind {
            Kind::Body => Ok(stage_after_head(search, head.shape)),
            Kind::Stub { scion } => match self.heap.scions.get(scion) {
                // A Stub may lie: its scion has to be live, and for this very home.
                Some((home, target)) if home == search.home => Ok(Stage::Looked {
                    place: search.place,
                    found: Ref::Disk(home),
                    target,
                    dst: search.dst,
                }),
                _ => Err(Damaged {
                    home: search.home,
                    at: 1,
                    word: u64::from(scion),
                }),
            },
        }
    }

    /// What the first two words of a record tell: how its load goes on, or where they are damaged.
    fn decode_stage(&self, search: Search, end: u32, words: [u64; 2]) -> Result<Stage, Damaged>
        ensures stage { IfOk result (λ stage. (head : RecordHead)
            × IsHead search.home end (slice_index words 0) (slice_index words 1) head
            × ((disk : OnDisk) → ReadAs (state disk (view self.now)) search head.shape head.kind stage)) }
        ensures damage { IfErr result (Breaks (view self.now).scions end (Some (Stage.Missed search)) words) }
    {
        let head = decode_head(search.home, end, words)?;
        self.stage_after(search, head)
    }

    /// Reads the first two words of a record.
    pub(crate) fn read_head<R: RecordReader>(
        &mut self,
        thread: u32,
        op: Op,
        end: u32,
        search: Search,
        reader: &mut R,
    ) -> StepResult
        requires asks { MayAdvance end (view self.old) thread op }
        requires stage { stage_of (view self.old) thread ≡ Some (Stage.Missed search) }
        ensures advances { Advances end (R.image reader.old) (view self.old) (view self.new) thread op result }
        ensures uses { Uses (view self.old) (view self.new) thread result (R.faults reader.old) (R.faults reader.new)
            (R.reads reader.old) (R.reads reader.new) }
        ensures image { R.image reader.new ≡ R.image reader.old }
        ensures damage { (damaged : DamagedRecord) → result ≡ StepResult.Refused (Refusal.Damaged damaged)
            → IsDamage (R.image reader.old) end (view self.old) thread damaged }
    {
        let mut words = [0; 2];
        if reader.read_at(search.home, &mut words).is_err() {
            return self.lose(thread, Refusal::DiskFault);
        }
        match self.decode_stage(search, end, words) {
            Ok(stage) => {
                self.set_stage(thread, op, stage);
                StepResult::Going
            }
            Err(damaged) => self.lose(thread, Refusal::Damaged(damaged)),
        }
    }

    /// Reads the words of a Body after its head into the buffer of the thread.
    pub(crate) fn read_rest<R: RecordReader>(
        &mut self,
        thread: u32,
        op: Op,
        end: u32,
        search: Search,
        shape: Shape,
        reader: &mut R,
    ) -> StepResult
        requires asks { MayAdvance end (view self.old) thread op }
        requires stage { stage_of (view self.old) thread ≡ Some (Stage.HeadRead search shape) }
        ensures advances { Advances end (R.image reader.old) (view self.old) (view self.new) thread op result }
        ensures uses { Uses (view self.old) (view self.new) thread result (R.faults reader.old) (R.faults reader.new)
            (R.reads reader.old) (R.reads reader.new) }
        ensures image { R.image reader.new ≡ R.image reader.old }
        ensures damage { (damaged : DamagedRecord) → result ≡ StepResult.Refused (Refusal.Damaged damaged)
            → IsDamage (R.image reader.old) end (view self.old) thread damaged }
    {
        let len = usize::from(shape.refs) + usize::from(shape.nums);
        // Read into a copy of the buffer, which is put back only if all is sound: what fails changes nothing.
        let mut record = self.rest.records[thread as usize];
        let words = &mut record[..len];
        if reader.read_at(search.home + 2, words).is_err() {
            return self.lose(thread, Refusal::DiskFault);
        }
        if let Err(damaged) = decode_rest(search.home, end, shape, words) {
            return self.lose(thread, Refusal::Damaged(damaged));
        }
        self.rest.records[thread as usize] = record;
        self.set_stage(thread, op, Stage::BodyRead { search, shape });
        StepResult::Going
    }
}
