//! How many operations there are, found without any memory for them.
ghost use Rattle.std.specs.Prelude.{◌≡◌, ℕ, ◌+◌, ◌-◌, ◌*◌, ◌^◌, ◌%◌, ◌<◌, ◌≤◌, length};
ghost use Rattle.melt_trace.specs.Language.{operation_count};
ghost use Rattle.melt_gen.specs.declared.workload.Workload.TheVariants as workload;
ghost use Rattle.melt_gen.specs.Workloads.{drawn, state_after, front_round, tree_round, operations_of, programs_of};

use crate::workload::Workload;
use rand_core::SeedableRng;
use rand_core::utils::NextWord;
use rand_xoshiro::SplitMix64;

/// What the thread draws from.
pub fn draws_of(seed: u64, thread: u32) -> SplitMix64
    ensures { result ≡ (seed + thread) % 2 ^ 64 }
{
    // It wraps, since a seed may be any number of 64 bits: so thread 1 of the largest one has the seed 0.
    SplitMix64::seed_from_u64(seed.wrapping_add(u64::from(thread)))
}

/// How many operations the queue's front has in round `k`.
fn front_count(draws: &mut SplitMix64, k: u32) -> u32
    ensures value { (seed : ℕ) → draws.old ≡ state_after seed (k - 1) → (draws.new ≡ state_after seed k)
        × ((first : ℕ) → result ≡ length (front_round first (drawn seed (k - 1)) k)) }
    ensures within { result ≤ 3 }
{
    if k == 0 {
        return 1;
    }
    if draws.next_word() % 2 == 0 {
        return 0;
    }
    3
}

fn queue_count(mut draws: SplitMix64, size: u32) -> u32
    requires { size ≤ 100000 }
    ensures value { (t : ℕ) → result ≡ length (operations_of workload.Queue t (drawn draws) size) }
    ensures within { result ≤ 9 * size + 3 }
{
    let mut count = 0;
    for k in 0..size {
        // All words are drawn here once more: they say in which rounds the first object leaves.
        count += 6 + front_count(&mut draws, k);
    }
    count + 3
}

fn object_count(k: u32) -> u32
    requires { k < 100000 }
    ensures value { (t w : ℕ) → result ≡ length (tree_round t w k) }
    ensures within { result ≤ 34 }
{
    if k == 0 { 3 } else { (k + 1).ilog2() + 3 }
}

fn tree_count(size: u32) -> u32
    requires { size ≤ 100000 }
    ensures value { (t : ℕ) (draw : ℕ → ℕ) → result ≡ length (operations_of workload.Tree t draw size) }
    ensures within { result ≤ 34 * size + 2 }
{
    let mut count = 0;
    for k in 0..size {
        count += object_count(k);
    }
    count + 2
}

/// How many operations a thread has.
fn count(kind: Workload, draws: SplitMix64, size: u32) -> u32
    requires { size ≤ 100000 }
    ensures value { (t : ℕ) → result ≡ length (operations_of kind t (drawn draws) size) }
    ensures within { result ≤ 34 * size + 18 }
{
    match kind {
        Workload::List => 7 * size + 18,
        Workload::Queue => queue_count(draws, size),
        Workload::Table => 6 * size + size / 16 * 2 + 5,
        Workload::Tree => tree_count(size),
    }
}

/// How many operations all threads have.
pub fn total_count(kind: Workload, seed: u64, size: u32, threads: u32) -> u32
    requires size { size ≤ 100000 }
    requires threads { threads ≤ 8 }
    ensures { result ≡ operation_count (programs_of kind seed size threads) }
{
    let mut total = 0;
    for thread in 0..threads {
        total += count(kind, draws_of(seed, thread), size);
    }
    total
}
