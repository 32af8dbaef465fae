//! Work on a list in rounds: what is busy is set aside, and tried again behind others.

ghost use Rattle.std.specs.Prelude.{◌≡◌, ◌+◌, ◌<◌, ◌≤◌, ◌++◌, ◌∷◌, [], IfOk, OnOk, length};
ghost use Rattle.edit_workers.specs.Rounds.{IsWorkedInRounds, AreMadeOrWait, IsTriedOrWaits, AllFew, AllFresh, fresh};
ghost use Rattle.edit_workers.specs.Rounds.{pairs_of, waits_with};
ghost use Rattle.edit_workers.specs.Trying.{OwnsAll};

use crate::lists::Left;
use crate::working::{Tried, pause, share_a_point, try_once};
use edit_gates::Gate;
use edit_history::Edit;
use edit_lists::List;
use grid_claims::{MeshTable, Pass};
use std::alloc::{AllocError, Global};

// How often a pair is tried.
const TRIES: u32 = 64;

// How many pairs come in a round besides those that were set aside.
const STRETCH: usize = 64;

// How many turns the pause between two of the last rounds has.
const PAUSE: u32 = 4096;

// A pair that waits, and how often it was busy.
#[derive(Clone, Copy)]
pub(crate) struct Waiting {
    pair: (u32, Edit),
    tries: u32,
}

// Whether a pair that waits shares a point with this edit.
fn some_shares(waiting: &[Waiting], edit: &Edit) -> bool
    ensures { result ≡ waits_with edit.now waiting.now }
{
    waiting.iter().any(|one| share_a_point(&one.pair.1, edit))
}

// Tries a pair once. It waits where it was busy; and untried where it was busy 64 times, or where it shares a point
// with one that waits.
fn try_or_wait<G: Gate>(
    alloc: Global,
    table: &MeshTable,
    pass: &mut Pass,
    kept: &mut Vec<Waiting>,
    one: Waiting,
    gate: &G,
) -> Result<(), AllocError>
    requires table { pass.old.table ≡ table.now }
    requires left { 0 < pass.old.left }
    requires few { one.tries ≤ 64 }
    ensures { OnOk result (IsTriedOrWaits one kept.old.items kept.new.items pass.old pass.new) }
{
    let Waiting { pair, tries } = one;
    if tries == TRIES || some_shares(kept, &pair.1) {
        kept.push(one)?;
        return Ok(());
    }
    let (tag, edit) = pair;
    match try_once(alloc, table, pass, tag, edit, gate)? {
        Tried::Made => Ok(()),
        Tried::LeftOver => {
            kept.push(Waiting {
                pair,
                tries: tries + 1,
            })?;
            Ok(())
        }
    }
}

// A round: each pair that waits is tried once at most, in their order. Those that wait then are the result.
fn round<G: Gate>(
    alloc: Global,
    table: &MeshTable,
    pass: &mut Pass,
    waiting: &[Waiting],
    gate: &G,
) -> Result<Vec<Waiting>, AllocError>
    requires table { pass.old.table ≡ table.now }
    requires left { length waiting.now ≤ pass.old.left }
    requires few { AllFew waiting.now }
    ensures round { IfOk result (λ kept. AreMadeOrWait waiting.now kept.items pass.old pass.new) }
    ensures alone { IfOk result (λ kept. OwnsAll pass.old → AllFresh waiting.now → kept.items ≡ []) }
{
    let mut kept = Vec::new(alloc);
    for one in waiting {
        try_or_wait(alloc, table, pass, &mut kept, *one, gate)?;
    }
    Ok(kept)
}

// The pairs that wait are left over.
fn left_over(alloc: Global, waiting: &[Waiting]) -> Result<Left, AllocError>
    ensures { IfOk result (λ left. left.pairs.items ≡ pairs_of waiting.now) }
{
    let mut pairs = Vec::new(alloc);
    for one in waiting {
        pairs.push(one.pair)?;
    }
    Ok(Left { pairs })
}

// Puts a pair behind those that wait, and makes a round where it is the last of its stretch.
fn come<G: Gate>(
    alloc: Global,
    table: &MeshTable,
    pass: &mut Pass,
    waiting: &mut Vec<Waiting>,
    pair: (u32, Edit),
    is_last: bool,
    gate: &G,
) -> Result<(), AllocError>
    requires table { pass.old.table ≡ table.now }
    requires left { length waiting.old.items < pass.old.left }
    requires few { AllFew waiting.old.items }
    ensures { OnOk result (AreMadeOrWait (waiting.old.items ++ fresh pair ∷ []) waiting.new.items pass.old pass.new) }
{
    waiting.push(Waiting { pair, tries: 0 })?;
    if is_last {
        *waiting = round(alloc, table, pass, waiting, gate)?;
    }
    Ok(())
}

// Makes rounds until none waits, 64 at most.
fn finish<G: Gate>(
    alloc: Global,
    table: &MeshTable,
    pass: &mut Pass,
    waiting: Vec<Waiting>,
    gate: &G,
) -> Result<Vec<Waiting>, AllocError>
    requires table { pass.old.table ≡ table.now }
    requires left { length waiting.items ≤ pass.old.left }
    requires few { AllFew waiting.items }
    ensures rounds { IfOk result (λ kept. AreMadeOrWait waiting.items kept.items pass.old pass.new) }
    ensures alone { IfOk result (λ kept. OwnsAll pass.old → AllFresh waiting.items → kept.items ≡ []) }
{
    let mut kept = waiting;
    for _round in 0..TRIES {
        kept = round(alloc, table, pass, &kept, gate)?;
        if kept.is_empty() {
            return Ok(kept);
        }
        pause(PAUSE);
    }
    Ok(kept)
}

/// Makes the edits of a list. A round comes after each 64 of them, and up to 64 at the end: in it each pair that came
/// and was not made is tried once, in order, unless it shares a point with one that stays. What is still not made, or
/// was busy 64 times, is left over. The pass is to be one of this table that may make so many edits.
///
/// # Errors
/// Want of memory. Some edits were made then, each at most once.
pub(crate) fn work_in_rounds<G: Gate>(
    alloc: Global,
    table: &MeshTable,
    pass: &mut Pass,
    list: &List,
    gate: &G,
) -> Result<Left, AllocError>
    requires table { pass.old.table ≡ table.now }
    requires left { length list.now.pairs.items ≤ pass.old.left }
    ensures { IfOk result (λ left. IsWorkedInRounds list.now.pairs.items left.pairs.items pass.old pass.new) }
{
    let mut waiting = Vec::new(alloc);
    for place in 0..list.pairs.len() {
        let is_last = place % STRETCH == STRETCH - 1;
        come(
            alloc,
            table,
            pass,
            &mut waiting,
            list.pairs[place],
            is_last,
            gate,
        )?;
    }
    let kept = finish(alloc, table, pass, waiting, gate)?;
    Ok(left_over(alloc, &kept)?)
}
