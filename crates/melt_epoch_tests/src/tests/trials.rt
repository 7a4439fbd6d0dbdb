use super::trial::run_trial;
use melt_same::same;
use std::test::Fail;

/// How many programs are tried; `bench/rounds` tries more.
const SEEDS: u64 = 100;

#[test]
fn random_programs_stand_in_an_order(rt: HostRuntime) -> Result<(), Fail> {
    let mut returned = 0_usize;
    let mut refused = 0_usize;
    for seed in 0..SEEDS {
        let outcome = run_trial(&rt, rt.alloc(), seed)?;
        same((seed, outcome.is_legal), (seed, true))?;
        returned = returned.saturating_add(outcome.returned);
        refused = refused.saturating_add(outcome.refused);
    }
    same(returned > 0 && refused > 0, true)
}
