//! Sets of points, kept in order.

ghost use Rattle.std.specs.Prelude.{◌≡◌, ℕ, ◌<◌, ◌≤◌, true, false, List, [], length, is_ok, IfOk, IfErr, OnOk, OnErr};
ghost use Rattle.std.specs.List.{insert, remove};
ghost use Rattle.std.specs.Vec.{vec_len, vec_capacity};
ghost use Rattle.point_order.specs.Sets.{IsAscending, is_among, with_point, without_point};
ghost use Rattle.edit_history.specs.Edits.{reply_to, after as after_of};
ghost use Rattle.edit_history.specs.declared.history.Edit.TheVariants.{Add, Take, Move};
ghost use Rattle.edit_history.specs.declared.history.Reply.TheVariants.{Inserted};

use crate::history::{Edit, Reply};
use crate::opening::{four_but, is_solid_with};
use point_order::Point;
use std::alloc::{AllocError, Global};
use std::marker::Model;

/// A set of points. Contracts see it as the ascending list of its points.
#[derive(Debug, Drop)]
pub struct PointSet {
    points: Vec<Point>,
}

impl Model for PointSet {
    ghost use Rattle.std.specs.Prelude.{List, ℕ};
    ghost use Rattle.point_order.specs.Sets.{IsAscending};

    ghost Value = { List ℕ };

    ghost view = { λ s. s.points.items };

    ghost invariant = { λ s. IsAscending s.points.items };
}

impl PointSet {
    /// The empty set. It takes no memory.
    pub fn new(alloc: Global) -> PointSet
        ensures { result ≡ [] }
    {
        PointSet {
            points: Vec::new(alloc),
        }
    }

    /// The points, ascending.
    pub fn points(&self) -> &[Point]
        ensures points { result.now ≡ self.now }
        ensures ascending { IsAscending self.now }
    {
        &self.points
    }

    /// What the edit would answer. It takes no memory.
    ///
    /// An added point is a duplicate where it is there. A taken one is missing where it is not; where it is there, the
    /// reply is `Flat` if the set without it has no four independent points. A point to be moved is missing where it is
    /// not there; where it is, its new place is occupied if a point is there, and the reply is `Flat` if the set with
    /// the point at its new place has no four independent points.
    pub fn reply_of(&self, edit: Edit) -> Reply
        ensures { result ≡ reply_to self.now edit }
    {
        match edit {
            Edit::Add(p) => match search(&self.points, p) {
                Ok(_) => Reply::Duplicate,
                Err(_) => Reply::Inserted,
            },
            Edit::Take(p) => match search(&self.points, p) {
                Ok(_) => match four_but(Some(p), &self.points) {
                    Some(_) => Reply::Removed,
                    None => Reply::Flat,
                },
                Err(_) => Reply::Missing,
            },
            Edit::Move(a, b) => self.reply_of_move(a, b),
        }
    }

    // What a move would answer.
    fn reply_of_move(&self, a: Point, b: Point) -> Reply
        ensures { result ≡ reply_to self.now (Move a b) }
    {
        match search(&self.points, a) {
            Ok(_) => match search(&self.points, b) {
                Ok(_) => Reply::Occupied,
                Err(_) => {
                    if is_solid_with(b, Some(a), &self.points) {
                        Reply::Moved
                    } else {
                        Reply::Flat
                    }
                }
            },
            Err(_) => Reply::Missing,
        }
    }

    /// Makes the edit, and says what it answers.
    ///
    /// # Errors
    /// Want of memory, which only an added point that is not yet there can meet. The set is then as before.
    pub fn after(&mut self, edit: Edit) -> Result<Reply, AllocError>
        ensures reply { IfOk result (λ reply. reply ≡ reply_to self.old edit) }
        ensures set { OnOk result (self.new ≡ after_of self.old edit) }
        ensures err { OnErr result (self.new ≡ self.old) }
        ensures only_inserted { OnErr result (reply_to self.old edit ≡ Inserted) }
    {
        match edit {
            Edit::Add(p) => self.add(p),
            Edit::Take(p) => Ok(self.take(p)),
            Edit::Move(a, b) => Ok(self.shift(a, b)),
        }
    }

    // Adds the point, where it is not there.
    fn add(&mut self, p: Point) -> Result<Reply, AllocError>
        ensures reply { IfOk result (λ reply. reply ≡ reply_to self.old (Add p)) }
        ensures set { OnOk result (self.new ≡ after_of self.old (Add p)) }
        ensures err { OnErr result (self.new ≡ self.old) }
        ensures only_inserted { OnErr result (reply_to self.old (Add p) ≡ Inserted) }
    {
        match search(&self.points, p) {
            Ok(_) => Ok(Reply::Duplicate),
            Err(i) => {
                self.points.insert(i, p)?;
                Ok(Reply::Inserted)
            }
        }
    }

    // Takes the point out, where it is there and the rest is solid.
    fn take(&mut self, p: Point) -> Reply
        ensures reply { result ≡ reply_to self.old (Take p) }
        ensures set { self.new ≡ after_of self.old (Take p) }
    {
        match search(&self.points, p) {
            Ok(i) => {
                if four_but(Some(p), &self.points).is_none() {
                    return Reply::Flat;
                }
                self.points.remove(i);
                Reply::Removed
            }
            Err(_) => Reply::Missing,
        }
    }

    // Moves the point, where it is there, its new place is free and the set stays solid.
    fn shift(&mut self, a: Point, b: Point) -> Reply
        ensures reply { result ≡ reply_to self.old (Move a b) }
        ensures set { self.new ≡ after_of self.old (Move a b) }
    {
        let reply = self.reply_of_move(a, b);
        if let Reply::Moved = reply {
            exchange(&mut self.points, a, b);
        }
        reply
    }
}

// Takes the point a out and puts b in. It takes no memory.
fn exchange(points: &mut Vec<Point>, a: Point, b: Point)
    requires order { IsAscending points.old.items }
    requires there { is_among a points.old.items ≡ true }
    requires absent { is_among b points.old.items ≡ false }
    ensures { points.new.items ≡ with_point b (without_point a points.old.items) }
{
    match search(points, a) {
        Ok(i) => {
            points.remove(i);
            put_in(points, b);
        }
        Err(_) => unreachable!(),
    }
}

// Puts in a point that is not there. It takes no memory.
fn put_in(points: &mut Vec<Point>, p: Point)
    requires order { IsAscending points.old.items }
    requires absent { is_among p points.old.items ≡ false }
    requires room { vec_len points.old < vec_capacity points.old }
    ensures { points.new.items ≡ with_point p points.old.items }
{
    match search(points, p) {
        Ok(_) => unreachable!(),
        Err(i) => match points.insert(i, p) {
            Ok(()) => {}
            Err(_) => unreachable!(),
        },
    }
}

// The place of the point, or else that at which it belongs.
fn search(points: &[Point], p: Point) -> Result<usize, usize>
    requires { IsAscending points.now }
    ensures there { is_ok result ≡ is_among p points.now }
    ensures found { IfOk result (λ i. (i < length points.now) × (remove points.now i ≡ without_point p points.now)) }
    ensures absent { IfErr result (λ i. (i ≤ length points.now) × (insert points.now i p ≡ with_point p points.now)) }
{
    points.binary_search(&p)
}
