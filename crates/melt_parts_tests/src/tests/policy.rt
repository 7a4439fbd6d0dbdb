use melt_model::Phase::{Inactive, Mark, Move};
use melt_policy::next_phase;
use melt_same::same;
use std::test::Fail;

/// Each row has the phases that are wanted after Inactive, Mark and Move.
#[test]
fn phases_by_the_rule() -> Result<(), Fail> {
    let top = u32::MAX;
    let (none, marks, moves) = ([Inactive; 3], [Mark; 3], [Mark, Move, Move]);
    for (live, heap, mark, move_, wanted) in [
        // each side of both borders, and an empty and a full heap
        (0, 1000, 50, 80, none),
        (499, 1000, 50, 80, none),
        (500, 1000, 50, 80, marks),
        (501, 1000, 50, 80, marks),
        (799, 1000, 50, 80, marks),
        (800, 1000, 50, 80, moves),
        (801, 1000, 50, 80, moves),
        (1000, 1000, 50, 80, moves),
        // half of three words is more than one word
        (1, 3, 50, 67, none),
        (2, 3, 50, 67, marks),
        (2, 3, 50, 66, moves),
        // parts of 0, and a heap of no words
        (0, 1000, 0, 80, marks),
        (499, 1000, 50, 0, none),
        (500, 1000, 50, 0, moves),
        (0, 1000, 0, 0, moves),
        (0, 0, 50, 80, moves),
        // parts that are the same, stand the other way round, or are more than the whole
        (799, 1000, 80, 80, none),
        (800, 1000, 80, 80, moves),
        (600, 1000, 80, 50, none),
        (1000, 1000, 100, 100, moves),
        (1000, 1000, 50, 101, marks),
        (1000, 1000, 101, 80, none),
        // the greatest numbers
        (top, top, 100, 100, moves),
        (top - 1, top, 100, 100, none),
        (top, top, 0, top, marks),
        (top, top, top, 0, none),
    ] {
        let row = (live, heap, mark, move_);
        let found = [
            next_phase(live, heap, Inactive, mark, move_),
            next_phase(live, heap, Mark, mark, move_),
            next_phase(live, heap, Move, mark, move_),
        ];
        same((row, found), (row, wanted))?;
    }
    Ok(())
}
