//! Edits that are made one after another of a set of points, without a mesh.

ghost use Rattle.std.specs.Prelude.{◌≡◌, ◌≢◌, List, ℕ, false, true, IfOk, IfSome, OnOk};
ghost use Rattle.point_order.specs.Sets.{IsAscending, IsIn};
ghost use Rattle.point_order.specs.Solid.{is_solid};
ghost use Rattle.edit_history.specs.Edits.{after, reply_to};
ghost use Rattle.edit_history.specs.declared.history.Edit.TheVariants.{Add, Move, Take};
ghost use Rattle.edit_outcomes.specs.Folding.{AreAnchors, AreChanges, StandsFor};
ghost use Rattle.edit_outcomes.specs.Outcomes.{lacking, left, replies};

use crate::anchors::{find_anchors, keys_left};
use crate::changes::Changes;
use edit_history::{Edit, Reply};
use point_order::Point;
use std::alloc::{AllocError, Global};
use std::collections::{BTreeSet, HashSet};

/// What a list of edits of a set comes to.
#[derive(Debug, Drop)]
pub struct Outcome {
    /// The reply to each edit, in their order.
    pub replies: Vec<Reply>,
    /// The points of the set that are not there at the end, ascending.
    pub gone: Vec<Point>,
    /// The points that are there at the end and were not in the set, ascending.
    pub came: Vec<Point>,
}

// What the edits so far have changed, and four independent points of the set as it is now, where they were needed. The
// keys are those of the points that some edit of the list takes or moves.
#[derive(Drop)]
struct Fold {
    changes: Changes,
    anchors: Option<[Point; 4]>,
    moving: HashSet<u64>,
}

impl Fold {
    // Before all edits.
    fn new(alloc: Global, edits: &[Edit]) -> Result<Fold, AllocError>
        ensures { IfOk result (λ fold. (s : List ℕ) → IsAscending s → StandsFor s s fold) }
    {
        Ok(Fold {
            changes: Changes::new(alloc),
            anchors: None,
            moving: keys_left(alloc, edits)?,
        })
    }

    // Whether the set is solid still, from which a point has just been taken. The anchors are of it then; else they
    // stay.
    fn stays_solid(
        &mut self,
        alloc: Global,
        set: &BTreeSet<Point>,
        edits: &[Edit],
        p: Point,
    ) -> Result<bool, AllocError>
        ensures solid { IfOk result (λ stays. (s t : List ℕ) → IfSome self.old.anchors (AreAnchors s) →
            ((q : ℕ) → IsIn q s → q ≢ p → IsIn q t) → AreChanges set.now.keys t self.old.changes →
            stays ≡ is_solid t) }
        ensures anchors { IfOk result (λ stays. (s t : List ℕ) → IfSome self.old.anchors (AreAnchors s) →
            ((q : ℕ) → IsIn q s → q ≢ p → IsIn q t) → AreChanges set.now.keys t self.old.changes →
            stays ≡ true → IfSome self.new.anchors (AreAnchors t)) }
        ensures kept { IfOk result (λ stays. stays ≡ false → self.new.anchors ≡ self.old.anchors) }
        ensures changes { OnOk result (self.new.changes ≡ self.old.changes) }
    {
        if let Some(four) = self.anchors {
            if !four.contains(&p) {
                return Ok(true);
            }
        }
        match find_anchors(alloc, set, &self.changes, &self.moving, edits)? {
            Some(four) => {
                self.anchors = Some(four);
                Ok(true)
            }
            None => Ok(false),
        }
    }

    // Adds a point.
    fn add(&mut self, set: &BTreeSet<Point>, p: Point) -> Result<Reply, AllocError>
        ensures reply { IfOk result (λ reply. (t : List ℕ) → StandsFor set.now.keys t self.old →
            reply ≡ reply_to t (Add p)) }
        ensures set { OnOk result ((t : List ℕ) → StandsFor set.now.keys t self.old →
            StandsFor set.now.keys (after t (Add p)) self.new) }
    {
        if self.changes.put(set, p)? {
            return Ok(Reply::Inserted);
        }
        Ok(Reply::Duplicate)
    }

    // Takes a point out.
    fn take(
        &mut self,
        alloc: Global,
        set: &BTreeSet<Point>,
        edits: &[Edit],
        p: Point,
    ) -> Result<Reply, AllocError>
        ensures reply { IfOk result (λ reply. (t : List ℕ) → StandsFor set.now.keys t self.old →
            reply ≡ reply_to t (Take p)) }
        ensures set { OnOk result ((t : List ℕ) → StandsFor set.now.keys t self.old →
            StandsFor set.now.keys (after t (Take p)) self.new) }
    {
        if !self.changes.take(set, p)? {
            return Ok(Reply::Missing);
        }
        if self.stays_solid(alloc, set, edits, p)? {
            return Ok(Reply::Removed);
        }
        self.changes.put(set, p)?;
        Ok(Reply::Flat)
    }

    // Moves a point.
    fn shift(
        &mut self,
        alloc: Global,
        set: &BTreeSet<Point>,
        edits: &[Edit],
        a: Point,
        b: Point,
    ) -> Result<Reply, AllocError>
        ensures reply { IfOk result (λ reply. (t : List ℕ) → StandsFor set.now.keys t self.old →
            reply ≡ reply_to t (Move a b)) }
        ensures set { OnOk result ((t : List ℕ) → StandsFor set.now.keys t self.old →
            StandsFor set.now.keys (after t (Move a b)) self.new) }
    {
        if !self.changes.has(set, a) {
            return Ok(Reply::Missing);
        }
        if self.changes.has(set, b) {
            return Ok(Reply::Occupied);
        }
        self.changes.put(set, b)?;
        self.changes.take(set, a)?;
        if self.stays_solid(alloc, set, edits, a)? {
            return Ok(Reply::Moved);
        }
        self.changes.put(set, a)?;
        self.changes.take(set, b)?;
        Ok(Reply::Flat)
    }

    // Makes an edit.
    fn make(
        &mut self,
        alloc: Global,
        set: &BTreeSet<Point>,
        edits: &[Edit],
        edit: Edit,
    ) -> Result<Reply, AllocError>
        ensures reply { IfOk result (λ reply. (t : List ℕ) → StandsFor set.now.keys t self.old →
            reply ≡ reply_to t edit) }
        ensures set { OnOk result ((t : List ℕ) → StandsFor set.now.keys t self.old →
            StandsFor set.now.keys (after t edit) self.new) }
    {
        match edit {
            Edit::Add(p) => self.add(set, p),
            Edit::Take(p) => self.take(alloc, set, edits, p),
            Edit::Move(a, b) => self.shift(alloc, set, edits, a, b),
        }
    }
}

/// What edits of a set come to, made one after another: what one thread replies to each, the points of the set that are
/// gone at the end, and those that came.
///
/// The set stays as it is. For n edits it takes about n log n steps and n times those of a look into the set; where a
/// take or a move is flat, or four points that are not taken cannot be told by few looks, as many steps more as there
/// are points and edits.
///
/// # Errors
/// Want of memory.
pub fn outcome_of(
    alloc: Global,
    set: &BTreeSet<Point>,
    edits: &[Edit],
) -> Result<Outcome, AllocError>
    requires { IsAscending set.now.keys }
    ensures replies { IfOk result (λ outcome. outcome.replies.items ≡ replies set.now.keys edits.now) }
    ensures gone { IfOk result (λ outcome. outcome.gone.items
        ≡ lacking (left set.now.keys edits.now) set.now.keys) }
    ensures came { IfOk result (λ outcome. outcome.came.items
        ≡ lacking set.now.keys (left set.now.keys edits.now)) }
{
    let mut fold = Fold::new(alloc, edits)?;
    let mut replies = Vec::with_capacity(alloc, edits.len())?;
    for edit in edits {
        let reply = fold.make(alloc, set, edits, *edit)?;
        replies.push(reply)?;
    }
    let (gone, came) = fold.changes.lists(alloc)?;
    Ok(Outcome {
        replies,
        gone,
        came,
    })
}
