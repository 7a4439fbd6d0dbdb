//! The order in which threads take their events.
ghost use Rattle.std.specs.Prelude.{◌≡◌, ◌↔◌, ℕ, ◌+◌, ◌<◌, ◌≤◌, ◌⊎◌, length, slice_get, false, true, Some, None, IfSome};
ghost use Rattle.std.specs.Prelude.{IfNone};
ghost use Rattle.melt_safepoint.specs.declared.thread.ThreadState.{ThreadState};
ghost use Rattle.melt_safepoint.specs.Modes.{MayGo};
ghost use Rattle.melt_step.specs.Turns.{GivesAll, GoesAt, InTurn, NoLine, NoTurn, NoneGoes, OfLine};

use melt_safepoint::ThreadState;
use melt_trace::Trace;

/// Where the giving out of events stands: at a line of the trace's orders, of whose events some are left if it was
/// begun; and, after the last line, at the thread whose turn it is.
#[derive(Drop)]
pub struct Turns {
    line: u32,
    left: u32,
    turn: u32,
}

impl Turns {
    /// At the first line, and then at thread 0.
    pub fn new() -> Turns
        ensures { result ≡ record { line = 0; left = 0; turn = 0 } }
    {
        Turns {
            line: 0,
            left: 0,
            turn: 0,
        }
    }

    /// What is left of a line is dropped.
    fn drop_line(&mut self)
        ensures { self.old.line < 4294967295 → self.new ≡ record self.old { line = self.old.line + 1; left = 0 } }
    {
        self.line = self.line.saturating_add(1);
        self.left = 0;
    }

    /// The thread that has the next event by the lines of the trace. A line whose thread cannot go on is dropped.
    fn by_line(&mut self, trace: &Trace, states: &[ThreadState<'_>]) -> Option<u32>
        ensures line { IfSome result (OfLine trace.now.orders states.now self.old self.new) }
        ensures none { IfNone result (NoLine trace.now.orders states.now self.old.line (length trace.now.orders)) }
        ensures turn { self.new.turn ≡ self.old.turn }
        ensures over { IfNone result
            (self.old.line ≤ length trace.now.orders → self.new.line ≡ length trace.now.orders) }
        ensures none_left { IfNone result (self.old.line < length trace.now.orders → self.new.left ≡ 0) }
    {
        while self.line < trace.orders() {
            let (thread, events) = trace.order(self.line);
            if can_go(states, thread) {
                let left = if self.left == 0 { events } else { self.left };
                self.left = left - 1;
                if self.left == 0 {
                    self.line += 1;
                }
                return Some(thread);
            }
            self.drop_line();
        }
        None
    }

    /// The thread that has the next event, if one can go on. After the last line the threads take one event each, in
    /// ascending order and again from the first. A line that is begun is not taken up again once no thread can go on.
    // (inlined, since it is asked before each event)
    #[inline(always)]
    pub fn next(&mut self, trace: &Trace, states: &[ThreadState<'_>]) -> Option<u32>
        requires { length states.now ≤ 8 }
        ensures goes { IfSome result (λ t. (s : ThreadState) × (slice_get states.now t ≡ Some s) × MayGo s.mode) }
        ensures none { IfNone result ((t : ℕ) (s : ThreadState) → slice_get states.now t ≡ Some s → MayGo s.mode → ⊥) }
        ensures given { IfSome result
            (λ t. OfLine trace.now.orders states.now self.old self.new t
            ⊎ InTurn trace.now.orders states.now self.old self.new t) }
        ensures waits { IfNone result (NoTurn states.now self.old self.new) }
    {
        let count = states.len() as u32;
        let first = match first_from(states, self.turn, count) {
            Some(t) => t,
            None => match first_from(states, 0, count) {
                Some(t) => t,
                None => {
                    if self.left != 0 {
                        self.drop_line();
                    }
                    return None;
                }
            },
        };
        if let Some(thread) = self.by_line(trace, states) {
            return Some(thread);
        }
        self.turn = first + 1;
        Some(first)
    }

    /// Gives all further events to a thread, until it cannot go on, if it is to have them: no line is left, and no other
    /// thread can go on. While one goes on, none begins to. After them it is the turn of the next thread.
    pub fn gives_all(&mut self, trace: &Trace, states: &[ThreadState<'_>], thread: u32) -> bool
        requires { length states.now ≤ 8 }
        ensures all { result ≡ true → GivesAll trace.now.orders states.now self.old self.new thread }
        ensures none { result ≡ false → self.new ≡ self.old }
    {
        if self.line < trace.orders() {
            return false;
        }
        let count = states.len() as u32;
        let Some(first) = first_from(states, 0, count) else {
            return false;
        };
        if first != thread {
            return false;
        }
        let other = first_from(states, first + 1, count);
        if other.is_some() {
            return false;
        }
        self.turn = thread + 1;
        true
    }
}

/// Whether there is such a thread and it can go on.
fn can_go(states: &[ThreadState<'_>], thread: u32) -> bool
    ensures { result ≡ true ↔ GoesAt states.now thread }
{
    match states.get(thread as usize) {
        Some(state) => state.can_go(),
        None => false,
    }
}

/// The first thread that can go on, of those from one on.
fn first_from(states: &[ThreadState<'_>], start: u32, count: u32) -> Option<u32>
    requires { count ≡ length states.now }
    ensures goes { IfSome result (λ t. (s : ThreadState) × (slice_get states.now t ≡ Some s) × MayGo s.mode) }
    ensures first { IfSome result (λ t. (start ≤ t) × NoneGoes states.now start t) }
    ensures none { IfNone result ((t : ℕ) (s : ThreadState) → start ≤ t → slice_get states.now t ≡ Some s → MayGo s.mode
        → ⊥) }
{
    for t in start..count {
        if states[t as usize].can_go() {
            return Some(t);
        }
    }
    None
}
