//! A set of points with the cells of its complex, which one owner changes.

ghost use Rattle.std.specs.Prelude.{◌≡◌, false, true, if◌then◌else◌, IfOk, MatchOption, OnErr, OnOk};
ghost use Rattle.point_order.specs.Complex.{complex};
ghost use Rattle.point_order.specs.Sets.{IsAscending, is_among, with_point, without_point};
ghost use Rattle.point_order.specs.Solid.{is_solid};
ghost use Rattle.del_laws.specs.Keys.{AreKeys};
ghost use Rattle.edit_history.specs.Edits.{after as after_of, moved_to, reply_to};
ghost use Rattle.edit_history.specs.declared.history.Edit.TheVariants.{Add, Move, Take};
ghost use Rattle.hole_laws.specs.Edits.{GoesFrom};
ghost use Rattle.cell_slots.specs.Clouds.{AreCellsOf};
ghost use Rattle.nearest_points.specs.Points.{IsNearest};

use crate::near::nearest_of_all;
use crate::shift::move_point;
use crate::take::take_point;
use edit_history::{Edit, Reply};
use net_owner::LinkedCells;
use point_order::{Cell, Point};
use std::alloc::{AllocError, Global};
use std::collections::BTreeSet;
use std::marker::Model;

/// A solid set of points with the cells of its complex. Contracts see it as the ascending list of its points.
#[derive(Drop)]
pub struct LinkedSet {
    linked: LinkedCells,
    points: BTreeSet<Point>,
}

impl Model for LinkedSet {
    ghost use Rattle.std.specs.Prelude.{List, ℕ};
    ghost use Rattle.cell_slots.specs.Clouds.{AreCellsOf};

    ghost Value = { List ℕ };

    ghost view = { λ s. s.points.keys };

    ghost invariant = { λ s. AreCellsOf s.points.keys s.linked.cells };
}

// The set of ascending points.
fn set_of(alloc: Global, points: &[Point]) -> Result<BTreeSet<Point>, AllocError>
    requires { IsAscending points.now }
    ensures { IfOk result (λ set. set.keys ≡ points.now) }
{
    let mut set = BTreeSet::new(alloc);
    for p in points {
        set.insert(*p)?;
    }
    Ok(set)
}

// Whether the set has the point.
fn has(points: &BTreeSet<Point>, p: Point) -> bool
    ensures { result ≡ is_among p points.now.keys }
{
    points.contains(&p)
}

// Takes a point of the set out.
fn remove_from(points: &mut BTreeSet<Point>, p: Point)
    requires { IsAscending points.old.keys }
    ensures { points.new.keys ≡ without_point p points.old.keys }
{
    points.remove(&p);
}

// Puts a point in that is not there.
fn put_in(
    alloc: Global,
    linked: &mut LinkedCells,
    points: &mut BTreeSet<Point>,
    p: Point,
) -> Result<(), AllocError>
    requires cells { AreCellsOf points.old.keys linked.old.cells }
    requires absent { is_among p points.old.keys ≡ false }
    ensures points { OnOk result (points.new.keys ≡ with_point p points.old.keys) }
    ensures cells { AreCellsOf points.new.keys linked.new.cells }
    ensures refused { OnErr result (points.new.keys ≡ points.old.keys) }
{
    let _ = p.key();
    points.insert(p)?;
    match linked.add_point(alloc, p) {
        Ok(_arrival) => Ok(()),
        Err(e) => {
            remove_from(points, p);
            Err(e)
        }
    }
}

// Takes a point out that is there, where the rest is solid, and answers whether it is.
fn take_out(
    alloc: Global,
    linked: &mut LinkedCells,
    points: &mut BTreeSet<Point>,
    p: Point,
) -> Result<bool, AllocError>
    requires cells { AreCellsOf points.old.keys linked.old.cells }
    requires there { is_among p points.old.keys ≡ true }
    ensures solid { IfOk result (λ is_removed. is_removed ≡ is_solid (without_point p points.old.keys)) }
    ensures points { IfOk result (λ is_removed. points.new.keys
        ≡ if is_removed then without_point p points.old.keys else points.old.keys) }
    ensures cells { AreCellsOf points.new.keys linked.new.cells }
    ensures refused { OnErr result (points.new.keys ≡ points.old.keys) }
{
    let is_removed = take_point(alloc, linked, p)?;
    if is_removed {
        remove_from(points, p);
        return Ok(true);
    }
    Ok(false)
}

// Moves a point that is there to a place where none is, where what it leaves is solid, and answers whether it is.
fn move_over(
    alloc: Global,
    linked: &mut LinkedCells,
    points: &mut BTreeSet<Point>,
    a: Point,
    b: Point,
) -> Result<bool, AllocError>
    requires cells { AreCellsOf points.old.keys linked.old.cells }
    requires there { is_among a points.old.keys ≡ true }
    requires free { is_among b points.old.keys ≡ false }
    ensures solid { IfOk result (λ is_moved. is_moved ≡ is_solid (moved_to a b points.old.keys)) }
    ensures points { IfOk result (λ is_moved. points.new.keys
        ≡ if is_moved then moved_to a b points.old.keys else points.old.keys) }
    ensures cells { AreCellsOf points.new.keys linked.new.cells }
    ensures refused { OnErr result (points.new.keys ≡ points.old.keys) }
{
    let _ = b.key();
    points.insert(b)?;
    match move_point(alloc, linked, a, b) {
        Ok(is_moved) => {
            if is_moved {
                remove_from(points, a);
                return Ok(true);
            }
            remove_from(points, b);
            Ok(false)
        }
        Err(e) => {
            remove_from(points, b);
            Err(e)
        }
    }
}

impl LinkedSet {
    /// The set of points, which are ascending and solid.
    ///
    /// # Errors
    /// Want of memory.
    pub fn of_points(alloc: Global, points: &[Point]) -> Result<LinkedSet, AllocError>
        requires ascending { IsAscending points.now }
        requires solid { is_solid points.now ≡ true }
        ensures { IfOk result (λ set. set ≡ points.now) }
    {
        let linked = LinkedCells::of_points(alloc, points)?;
        let points = set_of(alloc, points)?;
        Ok(LinkedSet { linked, points })
    }

    /// Whether it has the point. It takes no memory.
    pub fn has_point(&self, p: Point) -> bool
        ensures { result ≡ is_among p self.now }
    {
        has(&self.points, p)
    }

    /// A cell in conflict with a place; none where a point of the set stands there. It takes no memory.
    pub fn locate(&self, p: Point) -> Option<Cell>
        ensures { MatchOption result (is_among p self.now ≡ true) (λ cell. (is_among p self.now ≡ false)
            × GoesFrom self.now p cell) }
    {
        let _ = p.key();
        if has(&self.points, p) {
            return None;
        }
        Some(self.linked.cell_in_conflict(p))
    }

    /// The nearest point to a place, among those as near the one with the least key. It takes no memory.
    pub fn nearest(&self, q: Point) -> Point
        ensures { IsNearest self.now q result }
    {
        match self.linked.nearest(q) {
            Some(near) => near,
            None => nearest_of_all(&self.points, q),
        }
    }

    /// Adds a point, where it is not there.
    ///
    /// # Errors
    /// Want of memory. The set is then as before.
    pub fn add(&mut self, alloc: Global, p: Point) -> Result<Reply, AllocError>
        ensures reply { IfOk result (λ reply. reply ≡ reply_to self.old (Add p)) }
        ensures set { OnOk result (self.new ≡ after_of self.old (Add p)) }
        ensures refused { OnErr result (self.new ≡ self.old) }
    {
        if has(&self.points, p) {
            return Ok(Reply::Duplicate);
        }
        put_in(alloc, &mut self.linked, &mut self.points, p)?;
        Ok(Reply::Inserted)
    }

    /// Takes a point out, where it is there and the rest is solid.
    ///
    /// # Errors
    /// Want of memory. The set is then as before.
    pub fn take(&mut self, alloc: Global, p: Point) -> Result<Reply, AllocError>
        ensures reply { IfOk result (λ reply. reply ≡ reply_to self.old (Take p)) }
        ensures set { OnOk result (self.new ≡ after_of self.old (Take p)) }
        ensures refused { OnErr result (self.new ≡ self.old) }
    {
        if !has(&self.points, p) {
            return Ok(Reply::Missing);
        }
        let is_removed = take_out(alloc, &mut self.linked, &mut self.points, p)?;
        if is_removed {
            return Ok(Reply::Removed);
        }
        Ok(Reply::Flat)
    }

    /// Moves a point, where it is there, its new place is free and what it leaves is solid.
    ///
    /// # Errors
    /// Want of memory. The set is then as before.
    pub fn shift(&mut self, alloc: Global, a: Point, b: Point) -> Result<Reply, AllocError>
        ensures reply { IfOk result (λ reply. reply ≡ reply_to self.old (Move a b)) }
        ensures set { OnOk result (self.new ≡ after_of self.old (Move a b)) }
        ensures refused { OnErr result (self.new ≡ self.old) }
    {
        if !has(&self.points, a) {
            return Ok(Reply::Missing);
        }
        if has(&self.points, b) {
            return Ok(Reply::Occupied);
        }
        let is_moved = move_over(alloc, &mut self.linked, &mut self.points, a, b)?;
        if is_moved {
            return Ok(Reply::Moved);
        }
        Ok(Reply::Flat)
    }

    /// Makes an edit of the set, and says what it answers.
    ///
    /// # Errors
    /// Want of memory. The set is then as before.
    pub fn change(&mut self, alloc: Global, edit: Edit) -> Result<Reply, AllocError>
        ensures reply { IfOk result (λ reply. reply ≡ reply_to self.old edit) }
        ensures set { OnOk result (self.new ≡ after_of self.old edit) }
        ensures refused { OnErr result (self.new ≡ self.old) }
    {
        match edit {
            Edit::Add(p) => self.add(alloc, p),
            Edit::Take(p) => self.take(alloc, p),
            Edit::Move(a, b) => self.shift(alloc, a, b),
        }
    }

    /// The points, ascending. Four of them are independent, and each is the key of a point.
    ///
    /// # Errors
    /// Want of memory.
    pub fn points(&self, alloc: Global) -> Result<Vec<Point>, AllocError>
        ensures points { IfOk result (λ points. points.items ≡ self.now) }
        ensures ascending { IsAscending self.now }
        ensures solid { is_solid self.now ≡ true }
        ensures keys { AreKeys self.now }
    {
        self.points.iter().copied().collect(alloc)
    }

    /// The cells of the complex, Full cells first, each kind in order.
    ///
    /// # Errors
    /// Want of memory.
    pub fn cells(&self, alloc: Global) -> Result<Vec<Cell>, AllocError>
        ensures cells { IfOk result (λ cells. cells.items ≡ complex self.now) }
        ensures ascending { IsAscending self.now }
        ensures solid { is_solid self.now ≡ true }
        ensures keys { AreKeys self.now }
    {
        self.linked.listed(alloc)
    }

    /// The same of a set that is given away.
    ///
    /// # Errors
    /// Want of memory.
    pub fn into_cells(self, alloc: Global) -> Result<Vec<Cell>, AllocError>
        ensures { IfOk result (λ cells. cells.items ≡ complex self) }
    {
        let LinkedSet { linked, .. } = self;
        linked.in_order(alloc)
    }
}
