//! Seats are given to threads when an epoch begins, and taken back when it ends.
ghost use Rattle.std.specs.Prelude.{◌≡◌, ◌<◌, ◌≤◌, length, IfOk};
ghost use Rattle.melt_rule.specs.Beginning.{MayBegin};
ghost use Rattle.melt_rule.specs.Ending.{HasEnded};
ghost use Rattle.melt_rule.specs.Giving.{giver_view, given_view, joined_view};
ghost use Rattle.melt_rule.specs.Rule.{first_view};
ghost use Rattle.melt_rule.specs.Seats.{IsSeat, MayGoOn, Sits, knows_of};

use crate::began::Start;
use crate::ended::EndedWords;
use crate::view::View;
use crate::words::{GLOBALS_AT, Seated, Words};
use atomic_table::{Join, Split, Table};
use melt_model::{Ghost, NoMemory};
use std::alloc::Global;

/// The next thread that is away has a seat of its own.
pub(crate) struct Gives;

impl Split<View> for Gives {
    ghost use Rattle.melt_rule.specs.Giving.{giver_view, given_view};

    ghost left = { giver_view };

    ghost right = { given_view };
}

/// What two seats know is one's.
pub(crate) struct Takes;

impl Join<View> for Takes {
    ghost use Rattle.melt_rule.specs.Giving.{joined_view, spent_view};

    ghost both = { joined_view };

    ghost spent = { spent_view };
}

impl Words {
    /// Makes words of memory those of an epoch, with a first seat that speaks for all threads. So many of them, the
    /// last ones, are words of the space, and so many are globals, after `leading_words`.
    pub fn begin(
        alloc: Global,
        words: &[u64],
        size: u32,
        globals: u8,
        start: &Ghost<Start>,
    ) -> Result<(Words, Seated), NoMemory>
        requires begins { MayBegin start.now words.now }
        requires size { size ≡ start.now.began.size }
        requires globals { globals ≡ start.now.began.globals }
        ensures words { IfOk result (λ t. t.0.start ≡ start.now) }
        ensures seat { IfOk result (λ t. IsSeat t.0 t.1) }
        ensures first { IfOk result (λ t. knows_of t.1 ≡ first_view start.now) }
    {
        let before = words.len() - 1 - size as usize;
        let forwards_at = GLOBALS_AT + globals as usize;
        let (table, seat) = Table::of_words(alloc, words, start)?;
        Ok((
            Words {
                table,
                before,
                forwards_at,
                forwards: before + 1 - forwards_at,
                size,
            },
            seat,
        ))
    }

    /// Gives the next thread that is away a seat of its own.
    pub fn give_seat(&self, seat: &mut Seated) -> Seated
        requires seat { IsSeat self.now seat.old }
        requires away { 0 < length (knows_of seat.old).away }
        requires parts { 2 ≤ (knows_of seat.old).parts }
        requires room { (knows_of seat.old).over ≡ 0 }
        ensures seat { IsSeat self.now seat.new }
        ensures gives { knows_of seat.new ≡ giver_view (knows_of seat.old) }
        ensures given_seat { IsSeat self.now result }
        ensures given { knows_of result ≡ given_view (knows_of seat.old) }
    {
        self.table.shared.split_seat::<Gives>(seat)
    }

    /// Takes in another seat. What it knows, has counted and found is kept. It steps no more.
    pub fn take_seat(&self, seat: &mut Seated, other: Seated)
        requires seat { Sits self.now seat.old }
        requires goes_on { MayGoOn (knows_of seat.old) }
        requires other { Sits self.now other }
        requires other_goes_on { MayGoOn (knows_of other) }
        ensures seat { Sits self.now seat.new }
        ensures takes { knows_of seat.new ≡ joined_view (knows_of seat.old) (knows_of other) }
    {
        // Counts add up and what was seen is joined, so the last seat left knows the whole history.
        self.table.shared.join_seat::<Takes>(seat, other);
    }

    /// Ends the epoch with the seat that took in all others. Its words come out, and stand for the history that the
    /// seat has seen.
    pub fn close(self, seat: Seated) -> EndedWords
        requires seat { Sits self seat }
        requires goes_on { MayGoOn (knows_of seat) }
        requires all { (knows_of seat).parts ≡ length self.start.began.threads }
        ensures ended { HasEnded self.start result (knows_of seat) }
    {
        let Words {
            table,
            before: _,
            forwards_at: _,
            forwards: _,
            size: _,
        } = self;
        let closed = table.close_with(seat);
        EndedWords { closed }
    }
}
