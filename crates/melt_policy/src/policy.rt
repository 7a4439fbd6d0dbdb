//! The rule for the next phase: how full the heap is, and which phase was done.
ghost use Rattle.std.specs.Prelude.{◌≡◌, ◌*◌, ◌<◌, ◌≤◌, ◌↔◌, ◌⊎◌};
ghost use Rattle.melt_policy.specs.Policy.{planned};

use melt_model::Phase;

/// The phase that the next collection is planned to have. `live` counts the words in use after a
/// collection of the phase `last`, `heap` all words; `mark` and `move_` are parts of a hundred.
pub fn next_phase(live: u32, heap: u32, last: Phase, mark: u32, move_: u32) -> Phase
    ensures rule { result ≡ planned live heap last mark move_ }

    // The three cases of the rule.
    ensures inactive { (result ≡ Phase.Inactive) ↔ (100 * live < mark * heap) }
    ensures moving { (result ≡ Phase.Move)
        ↔ (mark * heap ≤ 100 * live × move_ * heap ≤ 100 * live
        × (last ≡ Phase.Mark ⊎ last ≡ Phase.Move)) }
    ensures marking { (result ≡ Phase.Mark)
        ↔ (mark * heap ≤ 100 * live × (100 * live < move_ * heap ⊎ last ≡ Phase.Inactive)) }
{
    let hundredths = 100 * u64::from(live);
    let heap = u64::from(heap);
    if hundredths < u64::from(mark) * heap {
        return Phase::Inactive;
    }
    match last {
        Phase::Mark | Phase::Move if hundredths >= u64::from(move_) * heap => Phase::Move,
        _ => Phase::Mark,
    }
}
