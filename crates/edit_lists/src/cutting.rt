//! Lines that are cut into segments as they come, and dealt to workers.

ghost use Rattle.std.specs.Prelude.{◌≡◌, ℕ, ◌%◌, ◌<◌, ◌∷◌, ◌++◌, ◌||◌, [], List as ListOf, map, replicate, length};
ghost use Rattle.std.specs.Prelude.{IfOk, OnOk};
ghost use Rattle.std.specs.List.{list_any};
ghost use Rattle.point_order.specs.Sets.{is_among};
ghost use Rattle.edit_history.specs.Edits.{edit_points, is_move, point_of};
ghost use Rattle.plain_laws.specs.Running.{Pair, clash as clash_of, dealt_out};
ghost use Rattle.edit_lists.specs.Dealing.{all_of, lists_of, pairs_in, segments_of, with_pair};
ghost use Rattle.edit_lists.specs.Cutting.{AreCut, AreMarks, HasSeen, has_place, has_key};

use crate::lists::{List, Lists, Segment};
use edit_history::Edit;
use std::alloc::{AllocError, Global};
use std::collections::HashSet;
use std::mem::replace;

// The keys of the points of a segment's lines: those of the lines that move, and, from the first that moves on, those
// of all lines.
#[derive(Drop)]
struct Marks {
    moved: HashSet<u64>,
    seen: HashSet<u64>,
    are_seen: bool,
}

// The segments of the lines that have come: those that are finished, and the present one.
#[derive(Drop)]
pub(crate) struct Cutter {
    finished: Vec<Segment>,
    present: Segment,
    marks: Marks,
}

// Whether the edit moves a point.
fn moves(edit: &Edit) -> bool
    ensures { result ≡ is_move edit.now }
{
    matches!(*edit, Edit::Move(_, _))
}

// Whether some point of the edit is in the set.
fn has_point(keys: &HashSet<u64>, edit: &Edit) -> bool
    ensures { result ≡ list_any (λ p. has_key keys.now p) (edit_points edit.now) }
{
    match *edit {
        Edit::Add(p) => keys.contains(&p.key()),
        Edit::Take(p) => keys.contains(&p.key()),
        Edit::Move(from, to) => keys.contains(&from.key()) || keys.contains(&to.key()),
    }
}

// Puts the points of the edit into the set.
fn put_points(keys: &mut HashSet<u64>, edit: &Edit) -> Result<(), AllocError>
    ensures { OnOk result ((p : ℕ) → has_key keys.new p ≡ (has_key keys.old p || is_among p (edit_points edit.now))) }
{
    keys.insert(edit.point().key())?;
    if let Edit::Move(_, to) = *edit {
        keys.insert(to.key())?;
    }
    Ok(())
}

// Puts the points of the edits of a list into the set.
fn put_list(keys: &mut HashSet<u64>, pairs: &[(u32, Edit)]) -> Result<(), AllocError>
    ensures { OnOk result ((p : ℕ) → has_key keys.new p ≡ (has_key keys.old p || list_any (has_place p) pairs.now)) }
{
    for pair in pairs {
        put_points(keys, &pair.1)?;
    }
    Ok(())
}

// The points of the edits of all lists.
fn points_of(alloc: Global, lists: &[List]) -> Result<HashSet<u64>, AllocError>
    ensures { IfOk result (λ keys. (p : ℕ) → has_key keys p ≡ list_any (has_place p) (all_of (pairs_in lists.now))) }
{
    let mut keys = HashSet::new(alloc);
    for list in lists {
        put_list(&mut keys, &list.pairs)?;
    }
    Ok(keys)
}

impl Marks {
    // Those of no line.
    fn new(alloc: Global) -> Marks
        ensures { AreMarks [] result }
    {
        Marks {
            moved: HashSet::new(alloc),
            seen: HashSet::new(alloc),
            are_seen: false,
        }
    }

    // Takes the points of all lines of the segment in, unless they are there.
    fn see(&mut self, alloc: Global, segment: &Segment) -> Result<(), AllocError>
        ensures { OnOk result ((n : ℕ) (lines : ListOf Pair) → 0 < n → lists_of segment.now ≡ dealt_out n lines →
            AreMarks lines self.old → HasSeen lines self.new) }
    {
        if !self.are_seen {
            self.seen = points_of(alloc, &segment.each)?;
            self.are_seen = true;
        }
        Ok(())
    }

    // Whether a line of this edit shares a point with a line of the segment, and either of the two moves.
    fn clash(&mut self, alloc: Global, segment: &Segment, edit: &Edit) -> Result<bool, AllocError>
        ensures { IfOk result (λ found. (n : ℕ) (lines : ListOf Pair) (tag : ℕ) → 0 < n →
            lists_of segment.now ≡ dealt_out n lines → AreMarks lines self.old →
            (found ≡ list_any (λ earlier. clash_of earlier (tag, edit.now)) lines) × AreMarks lines self.new) }
    {
        if moves(edit) {
            self.see(alloc, segment)?;
            return Ok(has_point(&self.seen, edit));
        }
        Ok(has_point(&self.moved, edit))
    }

    // Notes a line of this edit.
    fn note(&mut self, edit: &Edit) -> Result<(), AllocError>
        ensures { OnOk result ((lines : ListOf Pair) (tag : ℕ) → AreMarks lines self.old →
            AreMarks (lines ++ (tag, edit.now) ∷ []) self.new) }
    {
        if self.are_seen {
            put_points(&mut self.seen, edit)?;
        }
        if moves(edit) {
            put_points(&mut self.moved, edit)?;
        }
        Ok(())
    }
}

// So many empty lists.
fn empty_segment(alloc: Global, count: u32) -> Result<Segment, AllocError>
    ensures { IfOk result (λ segment. lists_of segment ≡ replicate count []) }
{
    let mut each = Vec::new(alloc);
    for _worker in 0..count {
        each.push(List {
            pairs: Vec::new(alloc),
        })?;
    }
    Ok(Segment { each })
}

// Puts a pair at the end of a list.
fn put_last(list: &mut List, tag: u32, edit: Edit) -> Result<(), AllocError>
    ensures { OnOk result (list.new.pairs.items ≡ list.old.pairs.items ++ (tag, edit) ∷ []) }
{
    list.pairs.push((tag, edit))?;
    Ok(())
}

// The worker of an edit, of so many: the key of its point says which.
fn worker_of(edit: &Edit, count: usize) -> usize
    requires some { 0 < count }
    ensures { result ≡ point_of edit.now % count }
{
    (edit.point().key() % count as u64) as usize
}

// Puts a pair at the end of the list of its worker.
fn put(segment: &mut Segment, tag: u32, edit: Edit) -> Result<(), AllocError>
    requires some { 0 < length segment.old.each.items }
    ensures { OnOk result (lists_of segment.new ≡ with_pair (tag, edit) (lists_of segment.old)) }
{
    let worker = worker_of(&edit, segment.each.len());
    put_last(&mut segment.each[worker], tag, edit)?;
    Ok(())
}

impl Cutter {
    /// One segment, of no line, for so many workers.
    pub(crate) fn new(alloc: Global, workers: u32) -> Result<Cutter, AllocError>
        ensures { IfOk result (AreCut workers []) }
    {
        Ok(Cutter {
            finished: Vec::new(alloc),
            present: empty_segment(alloc, workers)?,
            marks: Marks::new(alloc),
        })
    }

    // Finishes the present segment, and begins a new one.
    fn begin(&mut self, alloc: Global, workers: u32) -> Result<(), AllocError>
        ensures finished { OnOk result (map lists_of self.new.finished.items
            ≡ map lists_of self.old.finished.items ++ lists_of self.old.present ∷ []) }
        ensures present { OnOk result (lists_of self.new.present ≡ replicate workers []) }
        ensures marks { OnOk result (AreMarks [] self.new.marks) }
    {
        let next = empty_segment(alloc, workers)?;
        let full = replace(&mut self.present, next);
        self.finished.push(full)?;
        self.marks = Marks::new(alloc);
        Ok(())
    }

    /// Deals the next line: to the present segment, or to a new one where it clashes with a line of the present one.
    pub(crate) fn put(
        &mut self,
        alloc: Global,
        workers: u32,
        tag: u32,
        edit: Edit,
    ) -> Result<(), AllocError>
        requires some { 0 < workers }
        requires lists { length self.old.present.each.items ≡ workers }
        ensures { OnOk result ((lines : ListOf Pair) → AreCut workers lines self.old →
            AreCut workers (lines ++ (tag, edit) ∷ []) self.new) }
    {
        let clashes = self.marks.clash(alloc, &self.present, &edit)?;
        if clashes {
            self.begin(alloc, workers)?;
        }
        self.marks.note(&edit)?;
        put(&mut self.present, tag, edit)?;
        Ok(())
    }

    /// All segments.
    pub(crate) fn finish(self) -> Result<Lists, AllocError>
        ensures { IfOk result (λ lists. segments_of lists
            ≡ map lists_of self.finished.items ++ lists_of self.present ∷ []) }
    {
        let Cutter {
            finished,
            present,
            marks: _,
        } = self;
        let mut segments = finished;
        segments.push(present)?;
        Ok(Lists { segments })
    }
}
