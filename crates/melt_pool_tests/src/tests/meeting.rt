//! A gate at which threads meet.
use melt_io::Gate;
use std::sync::atomic::{AtomicU64, Ordering};
use std::thread;

/// How often a thread looks for another before it goes on without it.
pub(super) const TURNS: u32 = 1_000_000;

/// How often one that is held does, before the test fails.
const HOLD: u32 = 100_000_000;

/// A gate that holds each thread before its operation of one number, until so many have come there. It counts the threads
/// that it held in vain.
#[derive(Drop)]
pub(super) struct Meeting {
    threads: u64,
    /// By threads. None has the number 0.
    at: [u64; 8],
    came: AtomicU64,
    missed: AtomicU64,
}

impl Meeting {
    /// So many threads meet, each before its operation of this number.
    pub(super) fn of(threads: u64, at: [u64; 8]) -> Meeting {
        Meeting {
            threads,
            at,
            came: AtomicU64::new(0),
            missed: AtomicU64::new(0),
        }
    }

    /// No thread is held.
    pub(super) fn nowhere() -> Meeting {
        Meeting::of(0, [0; 8])
    }

    /// How many threads were held in vain, or did not come.
    pub(super) fn missed(&self) -> u64 {
        let absent = self
            .threads
            .saturating_sub(self.came.load(Ordering::SeqCst));
        absent.saturating_add(self.missed.load(Ordering::SeqCst))
    }

    fn hold(&self) {
        for _ in 0..HOLD {
            if self.threads <= self.came.load(Ordering::SeqCst) {
                return;
            }
            thread::yield_now();
        }
        self.missed.fetch_add(1, Ordering::SeqCst);
    }
}

impl Gate for Meeting {
    fn before(&self, thread: u32, op: u64) {
        if self.at.get(thread as usize) == Some(&op) {
            self.came.fetch_add(1, Ordering::SeqCst);
            self.hold();
        }
    }
}
