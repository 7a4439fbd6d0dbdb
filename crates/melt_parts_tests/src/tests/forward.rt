ghost use Rattle.std.specs.Prelude.{◌<◌};
ghost use Rattle.melt_forward.specs.Forwarding.{IsForwarding};

use melt_forward::{Found, find, pack, place_of, unpack};
use melt_same::same;
use std::alloc::Global;
use std::test::Fail;

#[test]
fn words_of_pairs() -> Result<(), Fail> {
    for (home, address, word) in [
        (1, 1, 4_294_967_300),
        (1, 2, 4_294_967_304),
        (2, 1, 8_589_934_596),
        (1, 1_073_741_823, 8_589_934_588),
        (4_294_967_295, 1, 18_446_744_069_414_584_324),
    ] {
        let pair = (home, address);
        same((pair, pack(home, address)), (pair, word))?;
    }
    Ok(())
}

#[test]
fn pairs_of_words() -> Result<(), Fail> {
    same(unpack(0), None)?;
    same(unpack(4_294_967_300), Some((1, 1)))?;
    same(unpack(8_589_934_588), Some((1, 1_073_741_823)))?;
    same(unpack(18_446_744_069_414_584_324), Some((4_294_967_295, 1)))?;
    Ok(())
}

#[test]
fn a_home_is_found_at_its_address() -> Result<(), Fail> {
    let words = [4_294_967_304, 17_179_869_196, 0];
    for (home, want) in [
        (1, Found::At(2)),
        (4, Found::At(3)),
        (2, Found::Empty(2)),
        (4_294_967_295, Found::Empty(2)),
    ] {
        same((home, find(&words, home)), (home, want))?;
    }
    Ok(())
}

#[test]
fn no_word_is_empty() -> Result<(), Fail> {
    let words = [4_294_967_304, 8_589_934_596];
    same(find(&words, 1), Found::At(2))?;
    same(find(&words, 2), Found::At(1))?;
    same(find(&words, 3), Found::Full)?;
    same(find(&[], 1), Found::Full)?;
    Ok(())
}

#[test]
fn homes_start_far_apart_among_empty_words() -> Result<(), Fail> {
    let words = [0; 1024];
    let found = [find(&words, 1), find(&words, 4)];
    same(found, [Found::Empty(441), Found::Empty(740)])
}

#[test]
fn homes_of_one_start_stand_side_by_side() -> Result<(), Fail> {
    // The homes 1, 5, 9 and 13 start at place 1.
    let one = [0, 4_294_967_300, 0, 0];
    let found = [find(&one, 5), find(&one, 1)];
    same(found, [Found::Empty(2), Found::At(1)])?;
    let three = [0, 4_294_967_300, 21_474_836_488, 38_654_705_676];
    let found = [find(&three, 9), find(&three, 13)];
    same(found, [Found::At(3), Found::Empty(0)])
}

#[test]
fn one_word_is_searched() -> Result<(), Fail> {
    let found = [
        find(&[0], 2),
        find(&[4_294_967_304], 1),
        find(&[4_294_967_304], 2),
    ];
    same(found, [Found::Empty(0), Found::At(2), Found::Full])
}

#[test]
fn a_search_goes_round_among_two_words() -> Result<(), Fail> {
    // Odd homes start at place 1.
    let last = [0, 4_294_967_304];
    same(
        [find(&last, 1), find(&last, 3)],
        [Found::At(2), Found::Empty(0)],
    )?;
    let both = [12_884_901_908, 4_294_967_304];
    for (home, want) in [(3, Found::At(5)), (5, Found::Full), (2, Found::Full)] {
        same((home, find(&both, home)), (home, want))?;
    }
    Ok(())
}

#[test]
fn a_search_goes_round_among_five_words() -> Result<(), Fail> {
    // The homes 1, 4 and 7 start at place 4.
    let words = [17_179_869_192, 0, 0, 0, 4_294_967_300];
    for (home, want) in [(1, Found::At(1)), (4, Found::At(2)), (7, Found::Empty(1))] {
        same((home, find(&words, home)), (home, want))?;
    }
    Ok(())
}

#[test]
fn the_first_of_two_words_of_a_home_is_found() -> Result<(), Fail> {
    let words = [4_294_967_300, 4_294_967_304];
    same(find(&words, 1), Found::At(2))?;
    Ok(())
}

/// A word that sends home 48265 to the address 1. Among 65,536 words the search for it starts at place 1, and so ends at
/// place 0.
const FILLED: u64 = 207_296_596_541_444;

/// What the search for the last home finds among 65,536 words, of which the first is this one and each other is `FILLED`.
fn find_last_home(alloc: Global, first: u64) -> Result<Found, Fail>
    requires { IsForwarding first }
{
    let mut words = vec![in alloc; FILLED; 65_536]?;
    words[0] = first;
    Ok(find(&words, u32::MAX))
}

#[test]
fn the_last_home_is_searched_among_as_many_words_as_there_may_be(
    rt: HostRuntime,
) -> Result<(), Fail> {
    let alloc = rt.alloc();
    let found = [
        find_last_home(alloc, 0)?,
        find_last_home(alloc, 18_446_744_069_414_584_348)?,
        find_last_home(alloc, FILLED)?,
    ];
    same(found, [Found::Empty(0), Found::At(7), Found::Full])
}

#[test]
fn places_of_tries() -> Result<(), Fail> {
    for (home, tried, count, place) in [
        (1, 0, 1024, 441),
        (1, 582, 1024, 1023),
        (1, 583, 1024, 0),
        (1, 1023, 1024, 440),
        // The product is taken modulo 2^32 first.
        (4, 0, 5, 4),
        (u32::MAX, 0, 65_536, 34_375),
        (u32::MAX, 31_160, 65_536, 65_535),
        (u32::MAX, 31_161, 65_536, 0),
        (u32::MAX, 65_535, 65_536, 34_374),
    ] {
        let tries = (home, tried, count);
        same((tries, place_of(home, tried, count)), (tries, place))?;
    }
    Ok(())
}

/// Whether the places of a search among so many words are those of a walk that starts where the home says.
fn is_walk(home: u32, count: u32) -> bool
    requires { 0 < count }
{
    let product = u64::from(home) * 2_654_435_769 % 4_294_967_296;
    let mut place = (product % u64::from(count)) as usize;
    for tried in 0..count {
        if place_of(home, tried, count as usize) != place {
            return false;
        }
        place = if place + 1 == count as usize {
            0
        } else {
            place + 1
        };
    }
    true
}

/// How many of the homes up to 1,000 are searched by such a walk.
fn walked_homes(count: u32) -> usize
    requires { 0 < count }
{
    (1..=1000).filter(|home| is_walk(*home, count)).count()
}

#[test]
fn a_search_tries_each_place_in_turn() -> Result<(), Fail> {
    for count in 1..=40 {
        same((count, walked_homes(count)), (count, 1000))?;
    }
    Ok(())
}
