//! What the mutators of a run take into an epoch, and what is taken from them after it.
//!
//! Between two epochs a run keeps readers, operations and registers apart from its mutators. An epoch is run over one
//! slice of mutators, so each of them has all that its thread needs for that time.
ghost use Rattle.std.specs.Prelude.{◌≡◌, ◌≤◌, [], length, vec_capacity, IsErrOf, OnOk, None, Some};
ghost use Rattle.melt_io.specs.Outside.{Rose};
ghost use Rattle.melt_safepoint.specs.Lends.{LendsAtMost};
ghost use Rattle.melt_safepoint.specs.declared.thread.ThreadState.{ThreadState};
ghost use Rattle.melt_pool.specs.Arming.{AllBring, AllWork, AreHanded, AreLent, CountsReaders, NoneSeated};
ghost use Rattle.melt_pool.specs.Machines.{AreDisarmed};
ghost use Rattle.melt_pool.specs.Workers.{Brings};

use crate::worker::Worker;
use melt_disk::StaleSpace;
use melt_epoch::Mutator;
use melt_io::{LendRefusal, StaleDisk};
use melt_safepoint::ThreadState;
use melt_scion::Registers;
use std::alloc::Global;

/// Gives a mutator the registers of its thread, and a reader.
fn arm<R: Drop>(m: &mut Mutator<Worker<'_, R>>, registers: Registers, reader: R)
    requires no_seat { m.old.seat ≡ None }
    ensures armed { m.new
        ≡ record m.old { registers = registers; reader = Some (record { reader = reader; state = None }) } }
    ensures size { length registers.regs ≡ 16 }
{
    m.set_registers(registers);
    m.set_reader(Worker {
        reader,
        state: None,
    });
}

/// Takes its reader and its operations from a mutator, and shows its registers.
fn disarm<'a, R: Drop>(m: &mut Mutator<Worker<'a, R>>) -> (R, ThreadState<'a>, Registers)
    requires brings { (s : ThreadState) × Brings m.old s }
    ensures left { m.new ≡ record m.old { reader = None } }
    ensures reader { m.old.reader ≡ Some (record { reader = result.0; state = Some result.1 }) }
    ensures registers { result.2 ≡ m.old.registers }
    ensures size { length result.2.regs ≡ 16 }
{
    let registers = m.registers();
    let Some(Worker { reader, state }) = m.take_reader() else {
        unreachable!();
    };
    let Some(state) = state else {
        unreachable!();
    };
    (reader, state, registers)
}

/// Lends a reader to each mutator, that of thread 0 first, and lets it hold the registers of its thread.
pub(crate) fn lend_all<'a, D: StaleDisk>(
    alloc: Global,
    space: &mut StaleSpace<'_, D>,
    mutators: &mut [Mutator<Worker<'a, D::Reader>>],
    registers: &[Registers],
) -> Result<(), LendRefusal>
    requires none_seated { NoneSeated mutators.old }
    requires as_many { length registers.now ≡ length mutators.old }
    ensures lent { OnOk result (AreLent D.Reader.image D.Reader.faults (D.image space.old.disk.now) registers.now
        mutators.old mutators.new) }
    ensures image { D.image space.new.disk.now ≡ D.image space.old.disk.now }
    ensures failed { IsErrOf result LendRefusal.Failed
        → Rose (D.faults space.old.disk.now) (D.faults space.new.disk.now) }
    ensures count { D.faults space.old.disk.now ≤ D.faults space.new.disk.now }
    ensures read_faults { D.read_faults space.new.disk.now ≡ D.read_faults space.old.disk.now }
    ensures lends { LendsAtMost (length mutators.old) (D.lends space.old.disk.now) (D.lends space.new.disk.now) }
    ensures writes { D.writes space.new.disk.now ≡ D.writes space.old.disk.now }
    ensures end { space.new.end ≡ space.old.end }
    ensures limit { space.new.limit ≡ space.old.limit }
    ensures same_disk { space.new.disk.ghost_name ≡ space.old.disk.ghost_name }
{
    for k in 0..mutators.len() {
        let reader = space.lend(alloc)?;
        arm(&mut mutators[k], registers[k], reader);
    }
    Ok(())
}

/// Gives each mutator the operations of its thread. The list of them is left empty, with its memory.
pub(crate) fn hand_out<'a, R: Drop>(
    states: &mut Vec<ThreadState<'a>>,
    mutators: &mut [Mutator<Worker<'a, R>>],
)
    requires as_many { length states.old.items ≡ length mutators.old }
    requires work { AllWork mutators.old }
    ensures handed { AreHanded states.old.items mutators.old mutators.new }
    ensures none { states.new.items ≡ [] }
    ensures room { vec_capacity states.new ≡ vec_capacity states.old }
{
    // From the end, so that none is shifted, and the list keeps its memory for when they come back.
    while let Some(state) = states.pop() {
        let m = &mut mutators[states.len()];
        let Some(mut worker) = m.take_reader() else {
            unreachable!();
        };
        worker.state = Some(state);
        m.set_reader(worker);
    }
}

/// Takes operations and registers from each mutator after an epoch, and gives its reader back.
pub(crate) fn take_back<'a, D: StaleDisk>(
    space: &mut StaleSpace<'_, D>,
    mutators: &mut [Mutator<Worker<'a, D::Reader>>],
    states: &mut Vec<ThreadState<'a>>,
    registers: &mut [Registers],
)
    requires none { states.old.items ≡ [] }
    requires room { length mutators.old ≤ vec_capacity states.old }
    requires as_many { length registers.old ≡ length mutators.old }
    requires bring { AllBring mutators.old }
    ensures disarmed { AreDisarmed mutators.old states.new.items registers.new mutators.new }
    ensures read_faults { CountsReaders D.Reader.faults mutators.old (D.read_faults space.old.disk.now)
        (D.read_faults space.new.disk.now) }
    ensures image { D.image space.new.disk.now ≡ D.image space.old.disk.now }
    ensures count { D.faults space.new.disk.now ≡ D.faults space.old.disk.now }
    ensures lends { D.lends space.new.disk.now ≡ D.lends space.old.disk.now }
    ensures writes { D.writes space.new.disk.now ≡ D.writes space.old.disk.now }
    ensures end { space.new.end ≡ space.old.end }
    ensures limit { space.new.limit ≡ space.old.limit }
    ensures same_disk { space.new.disk.ghost_name ≡ space.old.disk.ghost_name }
{
    for k in 0..mutators.len() {
        let (reader, state, held) = disarm(&mut mutators[k]);
        registers[k] = held;
        states.push_reserved(state);
        space.give_back(reader);
    }
}
