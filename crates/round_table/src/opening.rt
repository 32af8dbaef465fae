//! What a new table is laid out of.

ghost use Rattle.std.specs.Prelude.{◌≡◌, ◌^◌, ◌<◌, length, map, replicate, IfOk, Some};
ghost use Rattle.round_table.specs.Rounds.{fresh_passes};
ghost use Rattle.round_table.specs.Rule.{contents_of, opening_view};
ghost use Rattle.round_table.specs.Workers.{passes_of, states_of};
ghost use Rattle.round_table.specs.Closed.{opened_as};

use crate::pass::Pass;
use crate::plays::First;
use crate::view::{Board, Key, Place};
use crate::worker::Worker;
use std::alloc::{AllocError, Global};
use std::snapshot::Snapshot as Told;

// 0 for each bucket.
fn first_words(alloc: Global, count: usize) -> Result<Vec<u64>, AllocError>
    ensures { IfOk result (λ words. words.items ≡ replicate count 0) }
{
    let mut words = Vec::with_capacity(alloc, count)?;
    for _ in 0..count {
        words.push(0)?;
    }
    Ok(words)
}

// The contents, each in a slot.
fn slots_of<T: Drop>(alloc: Global, contents: Vec<T>) -> Result<Vec<Option<T>>, AllocError>
    ensures { IfOk result (λ slots. slots.items ≡ map Some contents.items) }
{
    let mut slots = Vec::with_capacity(alloc, contents.len())?;
    for content in contents {
        slots.push(Some(content))?;
    }
    Ok(slots)
}

// The board of a new table, and the seat that stands for all its passes.
pub(crate) fn board_for<T: Drop>(
    alloc: Global,
    contents: Vec<T>,
    workers: u32,
) -> Result<(Board<T>, Place<T>), AllocError>
    requires some { 0 < length contents.items }
    ensures words { IfOk result (λ r. r.0.shared.table_id.words ≡ length contents.items) }
    ensures slots { IfOk result (λ r. r.0.shared.table_id.slots ≡ length contents.items) }
    ensures contents { IfOk result (λ r. contents_of r.0.shared.key ≡ contents.items) }
    ensures workers { IfOk result (λ r. r.0.shared.key.workers ≡ workers) }
    ensures table { IfOk result (λ r. r.1.table_id ≡ r.0.shared.table_id) }
    ensures seat { IfOk result (λ r. r.1.me.0 ≡ opening_view r.0.shared.key) }
{
    let words = first_words(alloc, contents.len())?;
    let key = Key {
        contents: Told::of(&contents),
        workers,
    };
    let slots = slots_of(alloc, contents)?;
    match Board::new(alloc, &words, slots, &key) {
        Ok(made) => Ok(made),
        Err(_) => Err(AllocError),
    }
}

// The workers, each with a pass in a seat of its own.
pub(crate) fn dealt<T: Drop, S: Drop>(
    alloc: Global,
    board: &Board<T>,
    mut place: Place<T>,
    states: Vec<S>,
) -> Result<Vec<Worker<T, S>>, AllocError>
    requires words { 0 < board.now.shared.table_id.words }
    requires workers { length states.items ≡ board.now.shared.key.workers }
    requires few { length states.items < 2 ^ 32 }
    requires table { place.table_id ≡ board.now.shared.table_id }
    requires seat { place.me.0 ≡ opening_view board.now.shared.key }
    ensures passes { IfOk result (λ workers. passes_of workers.items
        ≡ fresh_passes (opened_as board.now.shared.table_id board.now.shared.key)) }
    ensures states { IfOk result (λ workers. states_of workers.items ≡ states.items) }
{
    let mut workers = Vec::with_capacity(alloc, states.len())?;
    let mut number = 0u32;
    for state in states {
        let first = board.shared.split_seat::<First>(&mut place);
        let pass = Pass {
            place: first,
            number,
        };
        workers.push(Worker { pass, state })?;
        number += 1;
    }
    Ok(workers)
}
