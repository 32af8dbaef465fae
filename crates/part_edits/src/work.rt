//! A list of lines is worked off in a part: each is made, or set aside.

ghost use Rattle.std.specs.Prelude.{◌≡◌, ◌<◌, false, length, slice_index_or, IfOk, List, MatchOption, None, OnErr, ℕ};
ghost use Rattle.list_laws.specs.Lists.{IsAscending};
ghost use Rattle.point_order.specs.Sets.{is_among, without_point};
ghost use Rattle.edit_history.specs.declared.history.Edit.TheVariants.{Add, Take};
ghost use Rattle.edit_history.specs.Edits.{edit_points, share_point};
ghost use Rattle.cell_slots.specs.Nets.{AreMoved};
ghost use Rattle.part_edits.specs.Changes.{ArePartKnown, IsMade};
ghost use Rattle.part_edits.specs.Lists.{HavePartKnown, IsAnswered, KeepOrder, answer_at, made_in};
ghost use Rattle.part_edits.specs.Made.{AreMade, Line, known_after, known_by};

use crate::change::{add_here, has};
use crate::take::take_here;
use edit_history::{Edit, Reply};
use net_owner::LinkedCells;
use point_order::Point;
use std::alloc::{AllocError, Global};
use std::collections::BTreeSet;

// Whether the point is one of the edit's.
fn is_of(p: Point, edit: &Edit) -> bool
    ensures { result ≡ is_among p (edit_points edit.now) }
{
    match *edit {
        Edit::Add(q) => q == p,
        Edit::Take(q) => q == p,
        Edit::Move(from, to) => from == p || to == p,
    }
}

// Whether some point is one of both edits; of a move both places are its points.
fn share_a_point(one: &Edit, other: &Edit) -> bool
    ensures { result ≡ share_point one.now other.now }
{
    match *one {
        Edit::Add(p) => is_of(p, other),
        Edit::Take(p) => is_of(p, other),
        Edit::Move(from, to) => is_of(from, other) || is_of(to, other),
    }
}

// Takes a point of the set out.
fn remove_from(points: &mut BTreeSet<Point>, p: Point)
    requires { IsAscending points.old.keys }
    ensures { points.new.keys ≡ without_point p points.old.keys }
{
    points.remove(&p);
}

// Adds a point, and notes it. Where a cell that has to be known stands elsewhere, or memory is wanting, nothing
// changed.
fn add_known(
    alloc: Global,
    linked: &mut LinkedCells,
    known: &mut BTreeSet<Point>,
    p: Point,
) -> Option<Reply>
    requires part { ArePartKnown known.old.keys (Add p) linked.old.cells }
    requires ascending { IsAscending known.old.keys }
    ensures made { MatchOption result (AreMoved linked.old.cells linked.new.cells)
        (λ reply. IsMade known.old.keys (Add p) reply linked.old.cells linked.new.cells) }
    ensures known { MatchOption result (known.new.keys ≡ known.old.keys)
        (λ reply. known.new.keys ≡ known_by known.old.keys (Add p) reply) }
{
    let _ = p.key();
    if has(known, p) {
        return Some(Reply::Duplicate);
    }
    match known.insert(p) {
        Ok(_) => {}
        Err(_) => return None,
    }
    match add_here(alloc, linked, p) {
        Ok(could) => {
            if could {
                return Some(Reply::Inserted);
            }
            remove_from(known, p);
            None
        }
        Err(_) => {
            remove_from(known, p);
            None
        }
    }
}

// Takes a point, and notes that.
fn take_known(
    alloc: Global,
    linked: &mut LinkedCells,
    known: &mut BTreeSet<Point>,
    p: Point,
) -> Option<Reply>
    requires part { ArePartKnown known.old.keys (Take p) linked.old.cells }
    requires ascending { IsAscending known.old.keys }
    ensures made { MatchOption result (AreMoved linked.old.cells linked.new.cells)
        (λ reply. IsMade known.old.keys (Take p) reply linked.old.cells linked.new.cells) }
    ensures known { MatchOption result (known.new.keys ≡ known.old.keys)
        (λ reply. known.new.keys ≡ known_by known.old.keys (Take p) reply) }
{
    if !has(known, p) {
        return Some(Reply::Missing);
    }
    let found = match take_here(alloc, linked, p) {
        Ok(found) => found,
        Err(_) => return None,
    };
    match found {
        Some(is_removed) => {
            if is_removed {
                remove_from(known, p);
                return Some(Reply::Removed);
            }
            Some(Reply::Flat)
        }
        None => None,
    }
}

// Makes an edit, and notes it, or leaves it, and then nothing changed: where a cell that has to be known stands
// elsewhere, where memory is wanting, and each move.
fn make_or_leave(
    alloc: Global,
    linked: &mut LinkedCells,
    known: &mut BTreeSet<Point>,
    edit: Edit,
) -> Option<Reply>
    requires part { ArePartKnown known.old.keys edit linked.old.cells }
    requires ascending { IsAscending known.old.keys }
    ensures made { MatchOption result (AreMoved linked.old.cells linked.new.cells)
        (λ reply. IsMade known.old.keys edit reply linked.old.cells linked.new.cells) }
    ensures known { MatchOption result (known.new.keys ≡ known.old.keys)
        (λ reply. known.new.keys ≡ known_by known.old.keys edit reply) }
{
    match edit {
        Edit::Add(p) => add_known(alloc, linked, known, p),
        Edit::Take(p) => take_known(alloc, linked, known, p),
        Edit::Move(_a, _b) => None,
    }
}

// Whether a line has no reply, and shares a point with another.
fn is_left_with(answer: &Option<Reply>, one: &Edit, other: &Edit) -> bool
    ensures { result ≡ false → answer.now ≡ None → share_point one.now other.now ≡ false }
{
    match answer {
        Some(_) => false,
        None => share_a_point(one, other),
    }
}

// Whether a line shares a point with an earlier one that has no reply.
fn shares_with_left(lines: &[(u32, Edit)], answers: &[Option<Reply>], i: usize) -> bool
    requires within { i < length lines.now }
    requires answers { length answers.now ≡ length lines.now }
    ensures { result ≡ false → (k : ℕ) (d : Line) → k < i → answer_at answers.now k ≡ None →
        share_point (slice_index_or lines.now k d).1 (slice_index_or lines.now i d).1 ≡ false }
{
    for k in 0..i {
        if is_left_with(&answers[k], &lines[k].1, &lines[i].1) {
            return true;
        }
    }
    false
}

// Makes a line, or sets it aside, and then nothing changed.
fn answer_to(
    alloc: Global,
    linked: &mut LinkedCells,
    known: &mut BTreeSet<Point>,
    lines: &[(u32, Edit)],
    answers: &[Option<Reply>],
    i: usize,
) -> Option<Reply>
    requires within { i < length lines.now }
    requires answers { length answers.now ≡ length lines.now }
    requires part { (d : Line) → ArePartKnown known.old.keys (slice_index_or lines.now i d).1 linked.old.cells }
    requires ascending { IsAscending known.old.keys }
    ensures { IsAnswered lines.now answers.now i result known.old.keys known.new.keys linked.old.cells
        linked.new.cells }
{
    if shares_with_left(lines, answers, i) {
        return None;
    }
    make_or_leave(alloc, linked, known, lines[i].1)
}

// So many lines without a reply.
fn no_answers(alloc: Global, count: usize) -> Result<Vec<Option<Reply>>, AllocError>
    ensures len { IfOk result (λ answers. length answers.items ≡ count) }
    ensures none { IfOk result (λ answers. (i : ℕ) → answer_at answers.items i ≡ None) }
{
    let mut answers = Vec::with_capacity(alloc, count)?;
    for _ in 0..count {
        answers.push(None)?;
    }
    Ok(answers)
}

/// Works a list of lines off, one after another, and answers the reply to each that was made. The others were set
/// aside: those that need a cell that stands elsewhere, or memory that is wanting, moves, and each line that shares a
/// point with an earlier one that was set aside.
///
/// Of the set of all points it is known which of those of the lines it has, as long as these cells and some others are
/// its cells; and it is known afterwards.
///
/// # Errors
/// Want of memory for the answers. Nothing changed then.
pub fn make_lines(
    alloc: Global,
    linked: &mut LinkedCells,
    known: &mut BTreeSet<Point>,
    lines: &[(u32, Edit)],
) -> Result<Vec<Option<Reply>>, AllocError>
    requires part { HavePartKnown known.old.keys lines.now linked.old.cells }
    requires ascending { IsAscending known.old.keys }
    ensures len { IfOk result (λ answers. length answers.items ≡ length lines.now) }
    ensures made { IfOk result (λ answers.
        AreMade known.old.keys (made_in lines.now answers.items) linked.old.cells linked.new.cells) }
    ensures known { IfOk result (λ answers.
        known.new.keys ≡ known_after known.old.keys (made_in lines.now answers.items)) }
    ensures order { IfOk result (λ answers. KeepOrder lines.now answers.items) }
    ensures refused { OnErr result (linked.new.cells ≡ linked.old.cells) }
    ensures known_still { OnErr result (known.new.keys ≡ known.old.keys) }
{
    let mut answers = no_answers(alloc, lines.len())?;
    for i in 0..lines.len() {
        let answer = answer_to(alloc, linked, known, lines, &answers, i);
        answers[i] = answer;
    }
    Ok(answers)
}
