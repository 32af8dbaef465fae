//! What is left in a table that no thread shares any more.

ghost use Rattle.std.specs.Prelude.{◌≡◌, ◌<◌, length, map, All, IfOk};
ghost use Rattle.round_table.specs.Rounds.{AreParted};
ghost use Rattle.round_table.specs.Closed.{opened_as, hand_of, claims_in_all, left_if};
ghost use Rattle.round_table.specs.Rule.{contents_of};
ghost use Rattle.round_table.specs.Workers.{states_of};

use crate::pass::Pass;
use crate::plays::{Newcomer, Together, Whole};
use crate::view::{Board, Place};
use crate::worker::Worker;
use std::alloc::{AllocError, Global};

// The passes in one seat, and the states.
pub(crate) fn gathered<T: Drop, S: Drop>(
    alloc: Global,
    board: &Board<T>,
    workers: Vec<Worker<T, S>>,
) -> Result<(Place<T>, Vec<S>), AllocError>
    requires words { 0 < board.now.shared.table_id.words }
    requires table { All (λ w. w.pass.table ≡ opened_as board.now.shared.table_id board.now.shared.key) workers.items }
    ensures table { IfOk result (λ r. r.0.table_id ≡ board.now.shared.table_id) }
    ensures hands { IfOk result (λ r. r.0.me.0.hands ≡ map hand_of workers.items) }
    ensures states { IfOk result (λ r. r.1.items ≡ states_of workers.items) }
{
    let mut states = Vec::with_capacity(alloc, workers.len())?;
    let (_, mut all) = board.shared.load_new_seat::<Newcomer>(0);
    for worker in workers {
        let Worker { pass, state } = worker;
        let Pass { mut place, .. } = pass;
        let whole = board.shared.split_seat::<Whole>(&mut place);
        board.shared.join_seat::<Together>(&mut all, whole);
        states.push(state)?;
    }
    Ok((all, states))
}

// What a slot has, where the word of its bucket is this.
fn left_in<T: Drop>(word: u64, slot: Option<T>) -> Option<T>
    ensures { result ≡ left_if word slot }
{
    if word == 0 { slot } else { None }
}

// What lies in the slots whose words are 0, where a seat stands for all passes.
pub(crate) fn what_is_left<T: Drop>(
    alloc: Global,
    board: Board<T>,
    place: Place<T>,
) -> Result<Vec<Option<T>>, AllocError>
    requires words { board.shared.table_id.words ≡ length (contents_of board.shared.key) }
    requires slots { board.shared.table_id.slots ≡ length (contents_of board.shared.key) }
    requires table { place.table_id ≡ board.shared.table_id }
    requires all { length place.me.0.hands ≡ board.shared.key.workers }
    ensures { IfOk result (λ rest. AreParted (contents_of board.shared.key)
        (claims_in_all place.me.0.hands) rest.items) }
{
    let count = board.slot_count();
    let mut rest = Vec::with_capacity(alloc, count)?;
    let mut closed = board.close_with(place);
    for b in 0..count {
        let slot = closed.take(b);
        let word = closed.word(b);
        rest.push_reserved(left_in(word, slot));
    }
    closed.free();
    Ok(rest)
}
