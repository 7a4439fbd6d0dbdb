use super::given::{Collection, Wanted, expect, expect_over, leaving};
use melt_io::SteadyDisk;
use melt_model::Reply::{Done, No, Num, Ref, Yes};
use melt_model::{Halt, Phase, Reply, ThreadEnd};
use melt_same::same;
use std::test::Fail;

/// An object leaves at the third collection, and comes back with its number.
pub(super) const MOVE_AND_RETURN: &[u8] =
    b"melt 1\nthreads 1\nglobals 1\nthread 0\nnew 0 0 1\nput 0 0 7\ngstore 0 0\ndrop 0\n\
      collect\ncollect\ncollect\ngload 0 0\nget 0 0\ndone\n";

const SEVEN: Reply = Num(7);

pub(super) const MOVE_AND_RETURN_REPLIES: [Reply; 9] = [
    Done, Done, Done, Done, Done, Done, Done, Ref, SEVEN,
];

/// An object leaves twice, and comes back by each of its globals. They name one object.
pub(super) const SAME_HOME: &[u8] =
    b"melt 1\nthreads 1\nglobals 3\nthread 0\nnew 0 0 1\nput 0 0 9\ngstore 0 0\ngstore 1 0\ngstore 2 0\ndrop 0\n\
      collect\ncollect\ncollect\ngload 0 0\nput 0 0 10\ndrop 0\ncollect\ncollect\n\
      gload 0 2\nget 0 0\ngload 1 1\nsame 0 1\ndone\n";

const TEN: Reply = Num(10);

pub(super) const SAME_HOME_REPLIES: [Reply; 18] = [
    Done, Done, Done, Done, Done, Done, Done, Done, Done, Ref, Done, Done, Done, Done, Ref, TEN,
    Ref, Yes,
];

/// The collections of a run in which an object of three words leaves, comes back and leaves again.
pub(super) const JOURNAL_OF_THREE: [Collection; 5] = [
    (Phase::Inactive, [0, 3, 0, 0, 1]),
    (Phase::Mark, [0, 3, 0, 0, 1]),
    (Phase::Move, [0, 0, 1, 0, 4]),
    (Phase::Move, [0, 3, 0, 1, 4]),
    (Phase::Move, [0, 0, 1, 0, 4]),
];

/// The home of an object that came back is a Stub after the next collection, and names the object still.
const STUB: &[u8] =
    b"melt 1\nthreads 1\nglobals 2\nthread 0\nnew 0 0 1\nput 0 0 9\ngstore 0 0\ngstore 1 0\ndrop 0\n\
      collect\ncollect\ncollect\ngload 0 0\ncollect\ngload 1 1\nsame 0 1\ndone\n";

/// An object that refers to itself, and a cycle of two.
const CYCLES: &[u8] =
    b"melt 1\nthreads 1\nglobals 2\nthread 0\nnew 0 1 0\nstore 0 0 0\ngstore 0 0\nnew 1 1 0\nnew 2 1 0\n\
      store 1 0 2\nstore 2 0 1\ngstore 1 1\ndrop 0\ndrop 1\ndrop 2\ncollect\ncollect\ncollect\n\
      gload 0 0\nload 1 0 0\nsame 0 1\ngload 2 1\nload 3 2 0\nload 4 3 0\nsame 2 4\nsame 2 3\ndone\n";

/// Two objects come back in one epoch.
pub(super) const TWO_RETURN: &[u8] =
    b"melt 1\nthreads 1\nglobals 2\nthread 0\nnew 0 0 0\ngstore 0 0\nnew 0 0 1\ngstore 1 0\ndrop 0\n\
      collect\ncollect\ncollect\ngload 0 0\ngload 1 1\ndone\n";

pub(super) const TWO_RETURN_REPLIES: [Reply; 10] = [
    Done, Done, Done, Done, Done, Done, Done, Done, Ref, Ref,
];

/// The collections where there is a word for the forwarding of one object only: the last one makes room for the other.
pub(super) const TWO_RETURN_JOURNAL: [Collection; 4] = [
    (Phase::Inactive, [0, 5, 0, 0, 1]),
    (Phase::Mark, [0, 5, 0, 0, 1]),
    (Phase::Move, [0, 0, 2, 0, 6]),
    (Phase::Move, [2, 2, 0, 1, 6]),
];

/// An object of 8 words leaves.
const EIGHT_WORDS: &[u8] =
    b"melt 1\nthreads 1\nglobals 1\nthread 0\nnew 0 0 6\ngstore 0 0\ndrop 0\ncollect\ncollect\ncollect\ndone\n";

const LEAVES_AND_RETURNS: Wanted<'static> = Wanted {
    threads: &[(&MOVE_AND_RETURN_REPLIES, ThreadEnd::Done)],
    journal: &[
        (Phase::Inactive, [0, 3, 0, 0, 1]),
        (Phase::Mark, [0, 3, 0, 0, 1]),
        (Phase::Move, [0, 0, 1, 0, 4]),
    ],
    halt: None,
};

#[test]
fn an_object_leaves_and_comes_back(rt: HostRuntime) -> Result<(), Fail> {
    let alloc = rt.alloc();
    let mut disk = SteadyDisk::new(alloc);
    let config = leaving(16, 1024);
    expect_over(
        alloc,
        config,
        MOVE_AND_RETURN,
        config,
        &mut disk,
        &LEAVES_AND_RETURNS,
    )?;
    let image = [0, 4_295_032_833, 0, 7];
    same((disk.image.as_slice(), disk.writes), (image.as_slice(), 1))
}

const LEAVES_AGAIN: Wanted<'static> = Wanted {
    threads: &[(&SAME_HOME_REPLIES, ThreadEnd::Done)],
    journal: &JOURNAL_OF_THREE,
    halt: None,
};

#[test]
fn an_object_that_leaves_again_has_the_same_home(rt: HostRuntime) -> Result<(), Fail> {
    let alloc = rt.alloc();
    let mut disk = SteadyDisk::new(alloc);
    let config = leaving(16, 1024);
    expect_over(alloc, config, SAME_HOME, config, &mut disk, &LEAVES_AGAIN)?;
    let image = [0, 4_295_032_833, 0, 10];
    same((disk.image.as_slice(), disk.writes), (image.as_slice(), 3))
}

const BECOMES_STUB: Wanted<'static> = Wanted {
    threads: &[(
        &[
            Done, Done, Done, Done, Done, Done, Done, Done, Ref, Done, Ref, Yes,
        ],
        ThreadEnd::Done,
    )],
    journal: &[
        (Phase::Inactive, [0, 3, 0, 0, 1]),
        (Phase::Mark, [0, 3, 0, 0, 1]),
        (Phase::Move, [0, 0, 1, 0, 4]),
        (Phase::Move, [3, 3, 0, 1, 4]),
    ],
    halt: None,
};

#[test]
fn a_home_that_became_a_stub_names_the_same_object(rt: HostRuntime) -> Result<(), Fail> {
    expect(rt.alloc(), STUB, leaving(16, 1024), &BECOMES_STUB)
}

const CYCLES_RETURN: Wanted<'static> = Wanted {
    threads: &[(
        &[
            Done, Done, Done, Done, Done, Done, Done, Done, Done, Done, Done, Done, Done, Done,
            Ref, Ref, Yes, Ref, Ref, Ref, Yes, No,
        ],
        ThreadEnd::Done,
    )],
    journal: &[
        (Phase::Inactive, [0, 9, 0, 0, 1]),
        (Phase::Mark, [0, 9, 0, 0, 1]),
        (Phase::Move, [0, 0, 3, 0, 10]),
    ],
    halt: None,
};

#[test]
fn cycles_come_back_as_they_were(rt: HostRuntime) -> Result<(), Fail> {
    expect(rt.alloc(), CYCLES, leaving(16, 1024), &CYCLES_RETURN)
}

const ONE_FORWARDING_WORD: Wanted<'static> = Wanted {
    threads: &[(&TWO_RETURN_REPLIES, ThreadEnd::Done)],
    journal: &TWO_RETURN_JOURNAL,
    halt: None,
};

const TWO_FORWARDING_WORDS: Wanted<'static> = Wanted {
    threads: &[(&TWO_RETURN_REPLIES, ThreadEnd::Done)],
    journal: &[
        (Phase::Inactive, [0, 5, 0, 0, 1]),
        (Phase::Mark, [0, 5, 0, 0, 1]),
        (Phase::Move, [0, 0, 2, 0, 6]),
    ],
    halt: None,
};

#[test]
fn a_collection_makes_room_for_forwarding_words(rt: HostRuntime) -> Result<(), Fail> {
    let alloc = rt.alloc();
    expect(alloc, TWO_RETURN, leaving(1, 1024), &ONE_FORWARDING_WORD)?;
    expect(alloc, TWO_RETURN, leaving(2, 1024), &TWO_FORWARDING_WORDS)
}

const HALTED: Wanted<'static> = Wanted {
    threads: &[(&[Done; 5], ThreadEnd::Halted)],
    journal: &[
        (Phase::Inactive, [0, 8, 0, 0, 1]),
        (Phase::Mark, [0, 8, 0, 0, 1]),
    ],
    halt: Some(Halt::DiskFull {
        end: 1,
        need: 8,
        limit: 8,
    }),
};

#[test]
fn a_disk_without_room_halts_the_run(rt: HostRuntime) -> Result<(), Fail> {
    expect(rt.alloc(), EIGHT_WORDS, leaving(16, 8), &HALTED)
}

const FILLED: Wanted<'static> = Wanted {
    threads: &[(&[Done; 6], ThreadEnd::Done)],
    journal: &[
        (Phase::Inactive, [0, 8, 0, 0, 1]),
        (Phase::Mark, [0, 8, 0, 0, 1]),
        (Phase::Move, [0, 0, 1, 0, 9]),
    ],
    halt: None,
};

#[test]
fn an_object_fills_the_disk(rt: HostRuntime) -> Result<(), Fail> {
    expect(rt.alloc(), EIGHT_WORDS, leaving(16, 9), &FILLED)
}
