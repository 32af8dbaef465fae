//! A set that edits have changed, kept as what is gone from the set before and what came to it.

ghost use Rattle.std.specs.Prelude.{◌≡◌, List, ℕ, not, IfOk, OnOk};
ghost use Rattle.point_order.specs.Sets.{IsAscending, is_among, with_point, without_point};
ghost use Rattle.edit_outcomes.specs.Folding.{AreChanges};

use point_order::Point;
use std::alloc::{AllocError, Global};
use std::collections::BTreeSet;

// The points of the set before that are gone, and those that came and were not in it.
#[derive(Drop)]
pub(crate) struct Changes {
    gone: BTreeSet<Point>,
    came: BTreeSet<Point>,
}

// Whether the set has the point.
fn has(points: &BTreeSet<Point>, p: Point) -> bool
    ensures { result ≡ is_among p points.now.keys }
{
    points.contains(&p)
}

// Puts a point into the set, and answers whether it is new.
fn put_in(points: &mut BTreeSet<Point>, p: Point) -> Result<bool, AllocError>
    ensures new { IfOk result (λ is_new. is_new ≡ not (is_among p points.old.keys)) }
    ensures points { OnOk result (points.new.keys ≡ with_point p points.old.keys) }
{
    let is_new = points.insert(p)?;
    Ok(is_new)
}

// Takes a point out of the set, and answers whether it was there.
fn take_out(points: &mut BTreeSet<Point>, p: Point) -> bool
    ensures there { result ≡ is_among p points.old.keys }
    ensures points { IsAscending points.old.keys → points.new.keys ≡ without_point p points.old.keys }
{
    points.remove(&p)
}

// The points of the set, ascending.
fn listed(alloc: Global, points: &BTreeSet<Point>) -> Result<Vec<Point>, AllocError>
    ensures { IfOk result (λ list. list.items ≡ points.now.keys) }
{
    points.iter().copied().collect(alloc)
}

impl Changes {
    /// None yet.
    pub(crate) fn new(alloc: Global) -> Changes
        ensures { (s : List ℕ) → IsAscending s → AreChanges s s result }
    {
        Changes {
            gone: BTreeSet::new(alloc),
            came: BTreeSet::new(alloc),
        }
    }

    /// Whether the point is there now.
    pub(crate) fn has(&self, set: &BTreeSet<Point>, p: Point) -> bool
        ensures { (t : List ℕ) → AreChanges set.now.keys t self.now → result ≡ is_among p t }
    {
        if has(set, p) {
            !has(&self.gone, p)
        } else {
            has(&self.came, p)
        }
    }

    /// Puts a point in, and answers whether it is new.
    pub(crate) fn put(&mut self, set: &BTreeSet<Point>, p: Point) -> Result<bool, AllocError>
        ensures new { IfOk result (λ is_new. (t : List ℕ) → AreChanges set.now.keys t self.old →
            is_new ≡ not (is_among p t)) }
        ensures put { OnOk result ((t : List ℕ) → AreChanges set.now.keys t self.old →
            AreChanges set.now.keys (with_point p t) self.new) }
    {
        if has(set, p) {
            return Ok(take_out(&mut self.gone, p));
        }
        let is_new = put_in(&mut self.came, p)?;
        Ok(is_new)
    }

    /// Takes a point out, and answers whether it was there.
    pub(crate) fn take(&mut self, set: &BTreeSet<Point>, p: Point) -> Result<bool, AllocError>
        ensures there { IfOk result (λ was_there. (t : List ℕ) → AreChanges set.now.keys t self.old →
            was_there ≡ is_among p t) }
        ensures taken { OnOk result ((t : List ℕ) → AreChanges set.now.keys t self.old →
            AreChanges set.now.keys (without_point p t) self.new) }
    {
        if has(set, p) {
            let was_there = put_in(&mut self.gone, p)?;
            return Ok(was_there);
        }
        Ok(take_out(&mut self.came, p))
    }

    /// The points that came, in no set before.
    pub(crate) fn came(&self) -> &BTreeSet<Point>
        ensures { result.now.keys ≡ self.now.came.keys }
    {
        &self.came
    }

    /// The points that are gone and those that came, each ascending.
    pub(crate) fn lists(&self, alloc: Global) -> Result<(Vec<Point>, Vec<Point>), AllocError>
        ensures gone { IfOk result (λ lists. lists.0.items ≡ self.now.gone.keys) }
        ensures came { IfOk result (λ lists. lists.1.items ≡ self.now.came.keys) }
    {
        let gone = listed(alloc, &self.gone)?;
        let came = listed(alloc, &self.came)?;
        Ok((gone, came))
    }
}
