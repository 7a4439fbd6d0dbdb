use super::given::{Wanted, expect, leaving, usual};
use melt_model::Reply::{Done, Nil, No, Null, Num, Range, Ref, Yes};
use melt_model::{Phase, ThreadEnd};
use std::test::Fail;

const ROUND_TRIPS: &[u8] =
    b"melt 1\nthreads 1\nglobals 1\nthread 0\nnew 0 1 1\nnew 1 0 0\nstore 0 0 1\nload 2 0 0\nsame 1 2\nput 0 0 7\n\
      get 0 0\ngload 3 0\ngstore 0 0\ngload 3 0\nsame 3 1\nload 4 3 0\nsame 4 2\ncopy 5 4\ndrop 4\nsame 4 5\n\
      load 0 4 0\nget 1 0\nload 6 3 1\ndone\n";

const LARGEST: &[u8] = b"melt 1\nthreads 1\nglobals 0\nthread 0\nnew 0 62 62\ndone\n";

const LARGEST_AND_ONE: &[u8] =
    b"melt 1\nthreads 1\nglobals 0\nthread 0\nnew 0 62 62\nnew 0 0 0\ndone\n";

const GARBAGE: &[u8] =
    b"melt 1\nthreads 1\nglobals 0\nthread 0\nnew 0 62 62\nnew 0 62 62\ncollect\nnew 1 0 0\ndone\n";

/// An object of 10 words has left when one of 8 is made and held.
const NO_RETURN: &[u8] =
    b"melt 1\nthreads 1\nglobals 1\nthread 0\nnew 0 0 8\ngstore 0 0\ndrop 0\ncollect\ncollect\ncollect\n\
      new 1 0 6\ngload 2 0\ndone\n";

/// An object of 10 words is referred to by a global alone when one of 10 is made: it leaves after two Moves that are
/// forced.
const FORCED: &[u8] =
    b"melt 1\nthreads 1\nglobals 1\nthread 0\nnew 0 0 8\ngstore 0 0\ndrop 0\nnew 1 0 8\ndone\n";

const MADE_AND_COMPARED: &[u8] =
    b"melt 1\nthreads 1\nglobals 0\nthread 0\nnew 0 1 0\nsame 0 0\ndone\n";

const LOADED: Wanted<'static> = Wanted {
    threads: &[(
        &[
            Done,
            Done,
            Done,
            Ref,
            Yes,
            Done,
            Num(7),
            Null,
            Done,
            Ref,
            No,
            Ref,
            Yes,
            Done,
            Done,
            No,
            Nil,
            Range,
            Range,
        ],
        ThreadEnd::Done,
    )],
    journal: &[],
    halt: None,
};

#[test]
fn what_was_stored_is_loaded(rt: HostRuntime) -> Result<(), Fail> {
    expect(rt.alloc(), ROUND_TRIPS, usual(16, 0), &LOADED)
}

const FITS: Wanted<'static> = Wanted {
    threads: &[(&[Done], ThreadEnd::Done)],
    journal: &[],
    halt: None,
};

const LACKS_ONE_WORD: Wanted<'static> = Wanted {
    threads: &[(&[], ThreadEnd::OutOfHeap { held: 0, need: 126 })],
    journal: &[(Phase::Inactive, [0, 0, 0, 0, 1])],
    halt: None,
};

#[test]
fn the_largest_object_fits_in_126_words(rt: HostRuntime) -> Result<(), Fail> {
    let alloc = rt.alloc();
    expect(alloc, LARGEST, usual(126, 0), &FITS)?;
    expect(alloc, LARGEST, usual(125, 0), &LACKS_ONE_WORD)
}

const HOLDS_ALL: Wanted<'static> = Wanted {
    threads: &[(&[Done], ThreadEnd::OutOfHeap { held: 126, need: 2 })],
    journal: &[(Phase::Inactive, [126, 126, 0, 0, 1])],
    halt: None,
};

#[test]
fn what_a_register_holds_leaves_no_room(rt: HostRuntime) -> Result<(), Fail> {
    expect(rt.alloc(), LARGEST_AND_ONE, usual(126, 0), &HOLDS_ALL)
}

const GIVEN_BACK: Wanted<'static> = Wanted {
    threads: &[(&[Done; 4], ThreadEnd::Done)],
    journal: &[(Phase::Inactive, [126, 126, 0, 0, 1])],
    halt: None,
};

#[test]
fn an_object_that_nothing_reaches_gives_its_words_back(rt: HostRuntime) -> Result<(), Fail> {
    expect(rt.alloc(), GARBAGE, usual(252, 0), &GIVEN_BACK)
}

const FINDS_NO_ROOM: Wanted<'static> = Wanted {
    threads: &[(&[Done; 7], ThreadEnd::OutOfHeap { held: 8, need: 10 })],
    journal: &[
        (Phase::Inactive, [0, 10, 0, 0, 1]),
        (Phase::Mark, [0, 10, 0, 0, 1]),
        (Phase::Move, [0, 0, 1, 0, 11]),
        (Phase::Move, [8, 8, 0, 0, 11]),
    ],
    halt: None,
};

#[test]
fn an_object_that_left_finds_no_room_to_return(rt: HostRuntime) -> Result<(), Fail> {
    expect(rt.alloc(), NO_RETURN, leaving(16, 1024), &FINDS_NO_ROOM)
}

const SILENT: Wanted<'static> = Wanted {
    threads: &[(&[Done, Yes], ThreadEnd::Done)],
    journal: &[
        (Phase::Inactive, [3, 3, 0, 0, 1]),
        (Phase::Inactive, [3, 3, 0, 0, 1]),
    ],
    halt: None,
};

#[test]
fn silent_collections_change_no_reply(rt: HostRuntime) -> Result<(), Fail> {
    expect(rt.alloc(), MADE_AND_COMPARED, usual(16, 1), &SILENT)
}

const MOVED: Wanted<'static> = Wanted {
    threads: &[(&[Done; 4], ThreadEnd::Done)],
    journal: &[
        (Phase::Inactive, [0, 10, 0, 0, 1]),
        (Phase::Move, [0, 10, 0, 0, 1]),
        (Phase::Move, [0, 0, 1, 0, 11]),
    ],
    halt: None,
};

#[test]
fn words_that_nobody_holds_are_moved_to_make_room(rt: HostRuntime) -> Result<(), Fail> {
    expect(rt.alloc(), FORCED, usual(16, 0), &MOVED)
}
