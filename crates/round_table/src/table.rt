//! The table.

ghost use Rattle.std.specs.Prelude.{◌≡◌, ◌^◌, ◌<◌, length, IfOk, IfErr};
ghost use Rattle.round_table.specs.Rounds.{IsClaimed, IsBusy, AreParted, fresh_passes};
ghost use Rattle.round_table.specs.Workers.{passes_of, states_of, AreAll, all_claims};

use crate::closing::{gathered, what_is_left};
use crate::opening::{board_for, dealt};
use crate::pass::Pass;
use crate::plays::Claim;
use crate::view::Board;
use crate::worker::Worker;
use std::alloc::{AllocError, Global};
use std::marker::Model;

/// A table of the contents of buckets, from which the workers of a round claim.
#[derive(Drop)]
pub struct RoundTable<T: Drop> {
    board: Board<T>,
}

impl<T: Drop> Model for RoundTable<T> {
    ghost use Rattle.std.specs.Prelude.{◌≡◌, ◌<◌, length};
    ghost use Rattle.round_table.specs.Rule.{contents_of};
    ghost use Rattle.round_table.specs.Rounds.{Opened};

    ghost Value = { Opened T };

    ghost view = { λ t.
        record {
          id = t.board.shared.table_id;
          workers = t.board.shared.key.workers;
          contents = contents_of t.board.shared.key;
        } };

    ghost invariant = { λ t. (t.board.shared.table_id.words ≡ length (contents_of t.board.shared.key))
        × (t.board.shared.table_id.slots ≡ length (contents_of t.board.shared.key)) ×
        (0 < t.board.shared.table_id.words) };
}

impl<T: Drop> RoundTable<T> {
    /// A table of these contents, one at least, and a worker with a pass for each of these states; their numbers go
    /// from 0 on.
    ///
    /// # Errors
    /// Want of memory. All is then dropped.
    pub fn open<S: Drop>(
        alloc: Global,
        contents: Vec<T>,
        states: Vec<S>,
    ) -> Result<(RoundTable<T>, Vec<Worker<T, S>>), AllocError>
        requires some { 0 < length contents.items }
        requires few { length states.items < 2 ^ 32 }
        ensures contents { IfOk result (λ r. r.0.contents ≡ contents.items) }
        ensures workers { IfOk result (λ r. r.0.workers ≡ length states.items) }
        ensures passes { IfOk result (λ r. passes_of r.1.items ≡ fresh_passes r.0) }
        ensures states { IfOk result (λ r. states_of r.1.items ≡ states.items) }
    {
        let (board, place) = board_for(alloc, contents, states.len() as u32)?;
        let workers = dealt(alloc, &board, place, states)?;
        Ok((RoundTable { board }, workers))
    }

    /// How many buckets it has.
    pub fn count(&self) -> usize
        ensures { result ≡ length self.now.contents }
    {
        self.board.word_count()
    }

    /// Claims a bucket for a pass, and takes its content out. The pass is to be one of this table, and the bucket one
    /// of its buckets.
    ///
    /// # Errors
    /// The bucket was claimed before: the number of the pass that has it, which may be this one.
    pub fn claim(&self, pass: &mut Pass<T>, b: u32) -> Result<T, u32>
        requires table { pass.old.table ≡ self.now }
        requires bucket { b < length self.now.contents }
        ensures claimed { IfOk result (λ content. IsClaimed b content pass.old pass.new) }
        ensures busy { IfErr result (λ whose. IsBusy b whose pass.old pass.new) }
    {
        let found = self
            .board
            .shared
            .compare_exchange::<Claim>(&mut pass.place, b as usize, 0, pass.number as u64 + 1);
        if found != 0 {
            return Err((found - 1) as u32);
        }
        match self
            .board
            .shared
            .exchange(&mut pass.place, b as usize, None)
        {
            Some(content) => Ok(content),
            None => unreachable!(),
        }
    }

    /// Closes the table with all its workers: what they have made, and what is left, by bucket.
    ///
    /// # Errors
    /// Want of memory. All is then dropped.
    pub fn close<S: Drop>(
        self,
        alloc: Global,
        workers: Vec<Worker<T, S>>,
    ) -> Result<(Vec<S>, Vec<Option<T>>), AllocError>
        requires all { AreAll self workers.items }
        ensures states { IfOk result (λ r. r.0.items ≡ states_of workers.items) }
        ensures parted { IfOk result (λ r. AreParted self.contents (all_claims workers.items) r.1.items) }
    {
        let RoundTable { board } = self;
        let (place, states) = gathered(alloc, &board, workers)?;
        let rest = what_is_left(alloc, board, place)?;
        Ok((states, rest))
    }
}
