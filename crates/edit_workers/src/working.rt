//! Work on a list.

ghost use Rattle.std.specs.Prelude.{◌≡◌, ◌<◌, ◌≤◌, IfOk, OnOk, OnErr, length};
ghost use Rattle.point_order.specs.Sets.{is_among};
ghost use Rattle.edit_history.specs.Edits.{edit_points, share_point};
ghost use Rattle.edit_workers.specs.Trying.{IsTried, HasMissed, HasMissedSome, IsWorkedOn};
ghost use Rattle.edit_workers.specs.Trying.{shares_with as shares_with_any};
ghost use Rattle.edit_workers.specs.Working.{IsWorked, IsBroken};

use crate::lists::Left;
use edit_gates::Gate;
use edit_history::Edit;
use edit_lists::List;
use grid_claims::{MeshTable, Pass, Refused};
use point_order::Point;
use std::alloc::{AllocError, Global};
use std::hint::spin_loop;

// How often an edit is tried.
const TRIES: u32 = 64;

// How many turns the first pause between two tries has, and the longest one.
const FIRST_PAUSE: u32 = 64;

const LONGEST_PAUSE: u32 = 4096;

// What came of one try of an edit, or of all.
#[derive(Clone, Copy)]
pub(crate) enum Tried {
    Made,
    LeftOver,
}

// Tries an edit once. Nothing else is asked of the answer than whether it was made.
pub(crate) fn try_once<G: Gate>(
    alloc: Global,
    table: &MeshTable,
    pass: &mut Pass,
    tag: u32,
    edit: Edit,
    gate: &G,
) -> Result<Tried, AllocError>
    requires table { pass.old.table ≡ table.now }
    requires left { 0 < pass.old.left }
    ensures tried { IfOk result (λ tried. IsTried 1 tag edit tried pass.old pass.new) }
    ensures broken { OnErr result (HasMissed 0 pass.old pass.new) }
{
    match table.try_edit(alloc, pass, tag, edit, gate) {
        Ok(_) => Ok(Tried::Made),
        Err(Refused::Busy { .. }) => Ok(Tried::LeftOver),
        Err(Refused::Memory) => Err(AllocError),
        Err(Refused::Spent) => unreachable!(),
    }
}

// Lets so many turns go by.
pub(crate) fn pause(turns: u32) {
    for _turn in 0..turns {
        spin_loop();
    }
}

// Tries an edit until it is made, 64 times at most; the pauses between the tries grow.
fn try_often<G: Gate>(
    alloc: Global,
    table: &MeshTable,
    pass: &mut Pass,
    tag: u32,
    edit: Edit,
    gate: &G,
) -> Result<Tried, AllocError>
    requires table { pass.old.table ≡ table.now }
    requires left { 0 < pass.old.left }
    ensures tried { IfOk result (λ tried. IsTried 64 tag edit tried pass.old pass.new) }
    ensures broken { OnErr result (HasMissedSome pass.old pass.new) }
{
    let mut turns = FIRST_PAUSE;
    for _tries in 0..TRIES {
        let again = edit;
        match try_once(alloc, table, pass, tag, again, gate)? {
            Tried::Made => return Ok(Tried::Made),
            Tried::LeftOver => pause(turns),
        }
        if turns < LONGEST_PAUSE {
            turns *= 2;
        }
    }
    Ok(Tried::LeftOver)
}

// Whether the point is one of the edit's.
fn is_of(p: Point, edit: &Edit) -> bool
    ensures { result ≡ is_among p (edit_points edit.now) }
{
    match *edit {
        Edit::Add(q) => q == p,
        Edit::Take(q) => q == p,
        Edit::Move(from, to) => from == p || to == p,
    }
}

/// Whether some point is one of both edits; of a move both places are its points.
pub fn share_a_point(one: &Edit, other: &Edit) -> bool
    ensures { result ≡ share_point one.now other.now }
{
    match *one {
        Edit::Add(p) => is_of(p, other),
        Edit::Take(p) => is_of(p, other),
        Edit::Move(from, to) => is_of(from, other) || is_of(to, other),
    }
}

impl Left {
    // Whether one of the pairs shares a point with this edit.
    fn shares_with(&self, edit: &Edit) -> bool
        ensures { result ≡ shares_with_any edit.now self.now.pairs.items }
    {
        self.pairs.iter().any(|pair| share_a_point(&pair.1, edit))
    }
}

// Tries an edit, unless an earlier one that shares a point with it is left over. Then it is left over too, as where it
// was not made.
fn work_on<G: Gate>(
    alloc: Global,
    table: &MeshTable,
    pass: &mut Pass,
    left: &mut Left,
    pair: (u32, Edit),
    gate: &G,
) -> Result<(), AllocError>
    requires table { pass.old.table ≡ table.now }
    requires left { 0 < pass.old.left }
    ensures done { OnOk result (IsWorkedOn pair left.old.pairs.items left.new.pairs.items pass.old pass.new) }
    ensures broken { OnErr result (HasMissedSome pass.old pass.new) }
{
    if left.shares_with(&pair.1) {
        left.pairs.push(pair)?;
        return Ok(());
    }
    let (tag, edit) = pair;
    match try_often(alloc, table, pass, tag, edit, gate)? {
        Tried::Made => Ok(()),
        Tried::LeftOver => {
            left.pairs.push(pair)?;
            Ok(())
        }
    }
}

/// Makes the edits of a list in their order, each tried up to 64 times. What was busy each time is left over, and so
/// is each later one that shares a point with one left over. The pass is to be one of this table that may make so many
/// edits.
///
/// # Errors
/// Want of memory. Some edits were made then, each at most once.
pub fn work<G: Gate>(
    alloc: Global,
    table: &MeshTable,
    pass: &mut Pass,
    list: &List,
    gate: &G,
) -> Result<Left, AllocError>
    requires table { pass.old.table ≡ table.now }
    requires left { length list.now.pairs.items ≤ pass.old.left }
    ensures worked { IfOk result (λ left. IsWorked list.now.pairs.items left.pairs.items pass.old pass.new) }
    ensures broken { OnErr result (IsBroken list.now.pairs.items pass.old pass.new) }
{
    let mut left = Left {
        pairs: Vec::new(alloc),
    };
    for pair in &list.pairs {
        work_on(alloc, table, pass, &mut left, *pair, gate)?;
    }
    Ok(left)
}
