ghost use Rattle.std.specs.Prelude.{◌≡◌, ◌≤◌, length, OnOk};

use melt_same::same;
use melt_space::{NoRoom, Space};
use melt_word::{Header, Shape, encode_header};
use std::alloc::Global;
use std::test::Fail;

#[test]
fn objects_stand_one_after_the_other(rt: HostRuntime) -> Result<(), Fail> {
    let pair = Shape { refs: 1, nums: 0 };
    let numbers = Shape { refs: 0, nums: 2 };
    let empty = Shape { refs: 0, nums: 0 };
    let mut space = Space::new(rt.alloc(), 7)?;
    let words = space.words();
    let made = [space.make(pair), space.make(numbers), space.make(empty)];
    let full = NoRoom { free: 0, need: 2 };
    let want = [Ok(1), Ok(4), Err(full)];
    same((words, made, space.used()), (7, want, 7))
}

#[test]
fn the_largest_object_needs_126_words(rt: HostRuntime) -> Result<(), Fail> {
    let largest = Shape { refs: 62, nums: 62 };
    let refusal = NoRoom {
        free: 125,
        need: 126,
    };
    let mut space = Space::new(rt.alloc(), 126)?;
    let mut short = Space::new(rt.alloc(), 125)?;
    let made = [space.make(largest), short.make(largest)];
    same(made, [Ok(1), Err(refusal)])
}

#[test]
fn words_that_were_used_are_used_again(rt: HostRuntime) -> Result<(), Fail> {
    let number = Shape { refs: 0, nums: 1 };
    let mut space = Space::new(rt.alloc(), 3)?;
    let words = space.words();
    space.set_word(3, 9);
    let before = space.word(3);
    space.set_used(0);
    let made = space.make(number);
    same((words, before, made, space.word(3)), (3, 9, Ok(1), 0))
}

#[test]
fn a_header_tells_its_shape(rt: HostRuntime) -> Result<(), Fail> {
    let shape = Shape { refs: 2, nums: 1 };
    let header = Header { shape, stale: true };
    let mut space = Space::new(rt.alloc(), 5)?;
    let words = space.words();
    space.set_word(1, encode_header(header));
    same((words, space.shape(1)), (5, shape))
}

/// The first three words of a space.
fn three_words(space: &Space) -> [u64; 3]
    requires { 3 ≤ length space.now.list }
{
    [space.word(1), space.word(2), space.word(3)]
}

#[test]
fn the_first_words_are_replaced(rt: HostRuntime) -> Result<(), Fail> {
    let copy = vec![in rt.alloc(); 5, 6]?;
    let mut space = Space::new(rt.alloc(), 4)?;
    let words = space.words();
    space.set_word(1, 8);
    space.set_word(3, 9);
    space.set_used(3);
    space.replace(copy);
    let got = (words, space.used(), three_words(&space));
    same(got, (4, 2, [5, 6, 9]))
}

#[test]
fn words_are_read_from_an_address_on(rt: HostRuntime) -> Result<(), Fail> {
    let mut space = Space::new(rt.alloc(), 4)?;
    let words = space.words();
    space.set_word(1, 6);
    space.set_word(2, 7);
    space.set_word(3, 8);
    space.set_word(4, 9);
    let got = (words, space.words_at(2, 2), space.words_at(3, 2));
    same(got, (4, [7, 8].as_slice(), [8, 9].as_slice()))
}

/// Replaces the first two words of a space by a copy. Gives how many words there was room for in the copy's vector.
fn copy_two(alloc: Global, space: &mut Space) -> Result<usize, Fail>
    requires { 2 ≤ length space.old.list }
    ensures { OnOk result (length space.new.list ≡ length space.old.list) }
{
    let mut room = space.room_for_copy(alloc)?;
    let capacity = room.capacity();
    room.extend_from_slice(&[5, 6])?;
    space.replace(room);
    Ok(capacity)
}

#[test]
fn a_vector_is_kept_for_the_next_copy(rt: HostRuntime) -> Result<(), Fail> {
    let alloc = rt.alloc();
    let mut space = Space::new(alloc, 6)?;
    let words = space.words();
    space.set_used(2);
    let first = copy_two(alloc, &mut space)?;
    let again = space.room_for_copy(alloc)?;
    let second = (again.len(), again.capacity());
    space.replace(again);
    space.set_used(4);
    let third = space.room_for_copy(alloc)?.capacity();
    same((words, first, second, third), (6, 2, (0, 2), 6))
}

#[test]
fn a_copy_of_most_words_takes_their_place(rt: HostRuntime) -> Result<(), Fail> {
    let alloc = rt.alloc();
    let mut space = Space::new(alloc, 3)?;
    let before = space.words();
    space.set_word(1, 8);
    space.set_word(3, 9);
    space.set_used(2);
    let room = copy_two(alloc, &mut space)?;
    let sizes = (before, room, space.used(), space.words());
    let words = three_words(&space);
    let left = space.room_for_copy(alloc)?.len();
    same((sizes, words, left), ((3, 3, 2, 3), [5, 6, 9], 0))
}

/// Fails where the words for a copy are others than these.
fn same_spare(alloc: Global, space: &mut Space, wanted: &[u64]) -> Result<(), Fail> {
    let words = space.words_for_copy(alloc)?;
    same(words.as_slice(), wanted)
}

#[test]
fn words_for_a_copy_are_as_many_as_those_in_use(rt: HostRuntime) -> Result<(), Fail> {
    let alloc = rt.alloc();
    let mut space = Space::new(alloc, 6)?;
    let before = space.words();
    space.set_word(3, 9);
    space.set_used(2);
    let mut words = space.words_for_copy(alloc)?;
    let given = (words.len(), [words[0], words[1]]);
    words[0] = 5;
    words[1] = 7;
    space.replace_first(words, 1);
    let after = (space.used(), three_words(&space));
    same((before, given, after), (6, (2, [0, 0]), (1, [5, 0, 9])))?;
    // The vector is the one of before, as it was.
    same_spare(alloc, &mut space, &[5, 7])
}

#[test]
fn the_first_of_the_words_take_the_place_of_all(rt: HostRuntime) -> Result<(), Fail> {
    let alloc = rt.alloc();
    let words = vec![in alloc; 5, 6, 7]?;
    let mut space = Space::new(alloc, 3)?;
    let before = space.words();
    space.set_word(1, 8);
    space.set_word(3, 9);
    space.set_used(3);
    space.replace_first(words, 2);
    let sizes = (before, space.used(), space.words());
    same((sizes, three_words(&space)), ((3, 2, 3), [5, 6, 9]))?;
    // What was there is the vector for the next copy.
    same_spare(alloc, &mut space, &[8, 0, 9])
}
