//! The points and the entries of a bucket after an entry for which there is room.

ghost use Rattle.std.specs.Prelude.{◌≡◌, ◌+◌, ◌<◌, ◌≤◌, ◌∷◌, [], ◌++◌, true, false, IfOk, IfErr, OnOk, OnErr, length};
ghost use Rattle.std.specs.List.{insert, remove};
ghost use Rattle.std.specs.Vec.{vec_len, vec_capacity};
ghost use Rattle.point_order.specs.Sets.{IsAscending, is_among, with_point as with, without_point};
ghost use Rattle.edit_history.specs.Edits.{HasKeys, changed};
ghost use Rattle.cell_store.specs.Points.{came, goal_of, last_of};

use edit_history::{Edit, Entry, Reply};
use point_order::Point;

// Puts the entry last. It takes no memory.
pub(crate) fn add_entry(entries: &mut Vec<Entry>, entry: Entry)
    requires { vec_len entries.old < vec_capacity entries.old }
    ensures { entries.new.items ≡ entries.old.items ++ entry ∷ [] }
{
    match entries.extend_from_slice(&[entry]) {
        Ok(()) => {}
        Err(_) => unreachable!(),
    }
}

// The place of the point, or else that at which it belongs.
fn search(points: &[Point], p: Point) -> Result<usize, usize>
    requires { IsAscending points.now }
    ensures there { OnOk result (with p points.now ≡ points.now) }
    ensures found { IfOk result (λ i. (i < length points.now) × (remove points.now i ≡ without_point p points.now)) }
    ensures missing { OnErr result (without_point p points.now ≡ points.now) }
    ensures none { OnErr result (is_among p points.now ≡ false) }
    ensures absent { IfErr result (λ i. (i ≤ length points.now) × (insert points.now i p ≡ with p points.now)) }
{
    points.binary_search(&p)
}

// Puts the point in, where it is not there. It takes no memory.
pub(crate) fn put_in(points: &mut Vec<Point>, p: Point)
    requires order { IsAscending points.old.items }
    requires room { vec_len points.old < vec_capacity points.old }
    ensures points { points.new.items ≡ with p points.old.items }
    ensures len { vec_len points.new ≤ vec_len points.old + 1 }
    ensures capacity { vec_capacity points.old ≤ vec_capacity points.new }
{
    if let Err(i) = search(points, p) {
        match points.insert(i, p) {
            Ok(()) => {}
            Err(_) => unreachable!(),
        }
    }
}

// Takes the point out.
pub(crate) fn take_out(points: &mut Vec<Point>, p: Point)
    requires { IsAscending points.old.items }
    ensures points { points.new.items ≡ without_point p points.old.items }
    ensures len { is_among p points.old.items ≡ true → vec_len points.new < vec_len points.old }
    ensures capacity { vec_capacity points.new ≡ vec_capacity points.old }
{
    if let Ok(i) = search(points, p) {
        points.remove(i);
    }
}

// Changes the points as the reply says. It takes no memory.
pub(crate) fn change_points(points: &mut Vec<Point>, p: Point, reply: Reply)
    requires order { IsAscending points.old.items }
    requires room { vec_len points.old < vec_capacity points.old }
    ensures { points.new.items ≡ changed points.old.items p reply }
{
    match reply {
        Reply::Inserted => put_in(points, p),
        Reply::Removed | Reply::Moved => take_out(points, p),
        Reply::Duplicate | Reply::Missing | Reply::Flat | Reply::Occupied => {}
    }
}

// The last point of the edit.
pub(crate) fn last(edit: &Edit) -> Point
    ensures { result ≡ last_of edit.now }
{
    match *edit {
        Edit::Add(p) | Edit::Take(p) | Edit::Move(_, p) => p,
    }
}

// The place to which a move goes.
pub(crate) fn goal(edit: &Edit) -> Option<Point>
    ensures { result ≡ goal_of edit.now }
{
    match *edit {
        Edit::Add(_) | Edit::Take(_) => None,
        Edit::Move(_, p) => Some(p),
    }
}

// The point that came where a point has moved.
pub(crate) fn came_by(entry: &Entry) -> Option<Point>
    ensures { result ≡ came entry.now.edit entry.now.reply }
{
    match entry.reply {
        Reply::Moved => goal(&entry.edit),
        Reply::Inserted | Reply::Removed => None,
        Reply::Duplicate | Reply::Missing | Reply::Flat | Reply::Occupied => None,
    }
}

// The points of an edit are keys of points.
pub(crate) fn know_keys(edit: &Edit)
    ensures { HasKeys edit.now }
{
    match *edit {
        Edit::Add(p) | Edit::Take(p) => {
            let _ = p.key();
        }
        Edit::Move(a, b) => {
            let _ = a.key();
            let _ = b.key();
        }
    }
}
