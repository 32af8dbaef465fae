//! Four independent points of a set that edits have changed.
//!
//! Those that no edit of the list takes or moves are looked at first, so that they need not be looked for again. What
//! is found is right whatever is looked at first: the order makes it quick.

ghost use Rattle.std.specs.Prelude.{◌≡◌, ◌<◌, List, ℕ, Some, false, IfOk, MatchOption, OnOk, length, option_map};
ghost use Rattle.std.specs.Prelude.{slice_index};
ghost use Rattle.point_order.specs.Sets.{IsIn};
ghost use Rattle.point_order.specs.Solid.{is_solid};
ghost use Rattle.edit_history.specs.OneThread.{places};
ghost use Rattle.edit_history.specs.Opening.{opening_four};
ghost use Rattle.edit_outcomes.specs.Folding.{AreAnchors, AreChanges, AreOf};

use crate::changes::Changes;
use edit_history::laws::solidity_is_of_the_set;
use edit_history::{Edit, find_four};
use point_order::Point;
use std::alloc::{AllocError, Global};
use std::collections::{BTreeSet, HashSet};

// How many points are looked at first, in turn; where they lie in one plane, all are.
const FEW: [usize; 3] = [16, 256, 4096];

/// The keys of the points that some edit takes, or moves from their place.
pub(crate) fn keys_left(alloc: Global, edits: &[Edit]) -> Result<HashSet<u64>, AllocError> {
    let mut keys = HashSet::new(alloc);
    for edit in edits {
        match *edit {
            Edit::Add(_) => {}
            Edit::Take(p) | Edit::Move(p, _) => {
                keys.insert(p.key())?;
            }
        }
    }
    Ok(keys)
}

// Puts a point into the list where it is in the set now.
fn push_there(
    set: &BTreeSet<Point>,
    changes: &Changes,
    p: Point,
    list: &mut Vec<Point>,
) -> Result<(), AllocError>
    ensures there { OnOk result ((t : List ℕ) → AreChanges set.now.keys t changes.now → AreOf t list.old.items →
        AreOf t list.new.items) }
    ensures kept { OnOk result ((q : ℕ) → IsIn q list.old.items → IsIn q list.new.items) }
    ensures pushed { OnOk result ((t : List ℕ) → AreChanges set.now.keys t changes.now → IsIn p t →
        IsIn p list.new.items) }
{
    if changes.has(set, p) {
        list.push(p)?;
    }
    Ok(())
}

// Puts the first points into the list that are in the set now and stay where they are, until it has so many.
fn push_staying(
    set: &BTreeSet<Point>,
    changes: &Changes,
    moving: &HashSet<u64>,
    points: &BTreeSet<Point>,
    most: usize,
    list: &mut Vec<Point>,
) -> Result<(), AllocError>
    ensures { OnOk result ((t : List ℕ) → AreChanges set.now.keys t changes.now → AreOf t list.old.items →
        AreOf t list.new.items) }
{
    for p in points {
        if list.len() >= most {
            return Ok(());
        }
        if !moving.contains(&p.key()) {
            push_there(set, changes, *p, list)?;
        }
    }
    Ok(())
}

// Puts the last point of the set before into the list, if it is in the set now and stays where it is: where the set
// begins with many points of one plane, it is mostly off that plane.
fn push_last(
    set: &BTreeSet<Point>,
    changes: &Changes,
    moving: &HashSet<u64>,
    list: &mut Vec<Point>,
) -> Result<(), AllocError>
    ensures { OnOk result ((t : List ℕ) → AreChanges set.now.keys t changes.now → AreOf t list.old.items →
        AreOf t list.new.items) }
{
    if let Some(p) = set.last() {
        if !moving.contains(&p.key()) {
            push_there(set, changes, *p, list)?;
        }
    }
    Ok(())
}

// Puts the points that the edits take or move into the list, those of the last edits first.
fn push_moving(
    set: &BTreeSet<Point>,
    changes: &Changes,
    edits: &[Edit],
    list: &mut Vec<Point>,
) -> Result<(), AllocError>
    ensures { OnOk result ((t : List ℕ) → AreChanges set.now.keys t changes.now → AreOf t list.old.items →
        AreOf t list.new.items) }
{
    for edit in edits.iter().rev() {
        push_there(set, changes, edit.point(), list)?;
    }
    Ok(())
}

// Puts all points into the list that are in the set now.
fn push_all(
    set: &BTreeSet<Point>,
    changes: &Changes,
    points: &BTreeSet<Point>,
    list: &mut Vec<Point>,
) -> Result<(), AllocError>
    ensures there { OnOk result ((t : List ℕ) → AreChanges set.now.keys t changes.now → AreOf t list.old.items →
        AreOf t list.new.items) }
    ensures kept { OnOk result ((q : ℕ) → IsIn q list.old.items → IsIn q list.new.items) }
    ensures pushed { OnOk result ((t : List ℕ) → AreChanges set.now.keys t changes.now → (q : ℕ) → IsIn q t →
        IsIn q points.now.keys → IsIn q list.new.items) }
{
    for p in points {
        push_there(set, changes, *p, list)?;
    }
    Ok(())
}

// Some points that are in the set now and stay where they are, so many at most of the set before and of those that
// came.
fn staying(
    alloc: Global,
    set: &BTreeSet<Point>,
    changes: &Changes,
    moving: &HashSet<u64>,
    most: usize,
) -> Result<Vec<Point>, AllocError>
    ensures { IfOk result (λ list. (t : List ℕ) → AreChanges set.now.keys t changes.now → AreOf t list.items) }
{
    let mut list = Vec::new(alloc);
    push_staying(set, changes, moving, changes.came(), most / 2, &mut list)?;
    push_last(set, changes, moving, &mut list)?;
    push_staying(set, changes, moving, set, most, &mut list)?;
    Ok(list)
}

// All points of the set as it is now, those first that stay where they are, then those that are taken or moved last.
fn all_points(
    alloc: Global,
    set: &BTreeSet<Point>,
    changes: &Changes,
    moving: &HashSet<u64>,
    edits: &[Edit],
) -> Result<Vec<Point>, AllocError>
    ensures { IfOk result (λ list. (t : List ℕ) → AreChanges set.now.keys t changes.now →
        AreOf t list.items × AreOf list.items t) }
{
    let mut list = staying(alloc, set, changes, moving, usize::MAX)?;
    push_moving(set, changes, edits, &mut list)?;
    push_all(set, changes, set, &mut list)?;
    push_all(set, changes, changes.came(), &mut list)?;
    Ok(list)
}

// The point at a place.
fn point_at(points: &[Point], place: usize) -> Point
    requires { place < length points.now }
    ensures { result ≡ slice_index points.now place }
{
    points[place]
}

// The points at the places of an opening four.
fn points_at(points: &[Point], four: [usize; 4]) -> [Point; 4]
    requires { option_map places (opening_four points.now) ≡ Some four }
    ensures { AreAnchors points.now result }
{
    let [i, j, k, l] = four;
    [
        point_at(points, i),
        point_at(points, j),
        point_at(points, k),
        point_at(points, l),
    ]
}

// Four independent points of a list, if there are four.
fn four_of(points: &[Point]) -> Option<[Point; 4]>
    ensures { MatchOption result (is_solid points.now ≡ false) (AreAnchors points.now) }
{
    match find_four(points) {
        Ok(four) => Some(points_at(points, four)),
        Err(_) => None,
    }
}

/// Four independent points of the set as it is now, if there are four. `moving` is what `keys_left` gives of the edits.
pub(crate) fn find_anchors(
    alloc: Global,
    set: &BTreeSet<Point>,
    changes: &Changes,
    moving: &HashSet<u64>,
    edits: &[Edit],
) -> Result<Option<[Point; 4]>, AllocError>
    ensures { IfOk result (λ found. (t : List ℕ) → AreChanges set.now.keys t changes.now →
        MatchOption found (is_solid t ≡ false) (AreAnchors t)) }
{
    solidity_is_of_the_set();
    for most in FEW {
        let few = staying(alloc, set, changes, moving, most)?;
        if let Some(four) = four_of(&few) {
            return Ok(Some(four));
        }
    }
    let all = all_points(alloc, set, changes, moving, edits)?;
    Ok(four_of(&all))
}
