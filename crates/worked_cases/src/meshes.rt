//! Meshes of points, and what edits make of them.

ghost use Rattle.std.specs.Prelude.{◌≤◌, ℕ, IfSome, List, length};
ghost use Rattle.cell_store.specs.Shares.{Shows};

use crate::reading::{at, list_at};
use crate::telling::{Answer, put_cells, put_point};
use bucket_grid::Grid;
use cell_store::{Hold, Mesh};
use edit_history::{Edit, Entry, PointSet, Reply, find_four, merge};
use one_mesh::{apply, begin, begin_cloud, complex, opening_points, points};
use point_order::Point;
use std::alloc::{AllocError, Global};

// The most entries with which a case begins.
const MOST: u64 = 1024;

// The tag of the line at a place.
fn tag_of(place: usize) -> u32 {
    u32::try_from(place).unwrap_or(u32::MAX)
}

// The mesh of the first four independent points, if there are four, of so many points at most.
pub(crate) fn mesh_of_four(
    alloc: Global,
    answer: &mut Answer,
    grid: Grid,
    points: &[Point],
) -> Option<Mesh> {
    if points.len() as u64 > MOST {
        return None;
    }
    match opening_points(points) {
        Ok(four) => answer.got(begin(alloc, grid, four)),
        Err(_) => {
            answer.put("no four independent points");
            None
        }
    }
}

// Makes an edit, where the history is not too long for it, and once more where memory was wanting.
fn edit(alloc: Global, answer: &mut Answer, mesh: &mut Mesh, place: usize, edit: Edit) {
    if mesh.count() < MOST {
        let again = edit;
        if apply(alloc, mesh, tag_of(place), again).is_err()
            && apply(alloc, mesh, tag_of(place), edit).is_err()
        {
            answer.fail();
        }
    }
}

// The grid whose size is the first list.
pub(crate) fn grid_of(answer: &mut Answer, lists: &str) -> Option<Grid> {
    match Grid::new(at(list_at(lists, 0), 0)?) {
        Ok(grid) => Some(grid),
        Err(_) => {
            answer.put("no grid");
            None
        }
    }
}

// The mesh of points, the first four independent ones first; none where no four are, or there are too many.
pub(crate) fn mesh_of_points(
    alloc: Global,
    answer: &mut Answer,
    grid: Grid,
    points: &[Point],
) -> Option<Mesh>
    ensures { IfSome result (λ mesh. length mesh.history ≤ 1024) }
{
    let mut mesh = mesh_of_four(alloc, answer, grid, points)?;
    let Ok(four) = find_four(points) else {
        return None;
    };
    for (place, p) in points.iter().enumerate() {
        if !four.contains(&place) {
            edit(alloc, answer, &mut mesh, place, Edit::Add(*p));
        }
    }
    if mesh.count() > MOST {
        return None;
    }
    Some(mesh)
}

// The mesh on the grid of the first list of the points of the second one and of the edits of the third one, which has
// none where it names buckets.
pub(crate) fn mesh_of(alloc: Global, answer: &mut Answer, lists: &str) -> Option<Mesh> {
    let grid = grid_of(answer, lists)?;
    let points: Vec<Point> = answer.all(list_at(lists, 1));
    let edits: Vec<Edit> = answer.all(list_at(lists, 2));
    let mut mesh = mesh_of_points(alloc, answer, grid, &points)?;
    edit_all(alloc, answer, &mut mesh, points.len(), &edits);
    Some(mesh)
}

// Makes edits, whose tags go on from the first one.
fn edit_all(alloc: Global, answer: &mut Answer, mesh: &mut Mesh, first: usize, edits: &[Edit]) {
    for (place, line) in edits.iter().enumerate() {
        edit(alloc, answer, mesh, first.saturating_add(place), *line);
    }
}

// The same mesh, its points put in at once.
fn begun_of(alloc: Global, answer: &mut Answer, lists: &str) -> Option<Mesh> {
    let grid = grid_of(answer, lists)?;
    let points: Vec<Point> = answer.all(list_at(lists, 1));
    let edits: Vec<Edit> = answer.all(list_at(lists, 2));
    let Ok(four) = find_four(&points) else {
        answer.put("no four independent points");
        return None;
    };
    if points.len() as u64 > MOST {
        return None;
    }
    let mut mesh = answer.got(begin_cloud(alloc, grid, &points, four))?;
    edit_all(alloc, answer, &mut mesh, points.len(), &edits);
    Some(mesh)
}

// How a reply is told.
pub(crate) fn letter(reply: Reply) -> char {
    match reply {
        Reply::Inserted => 'I',
        Reply::Duplicate => 'D',
        Reply::Removed => 'R',
        Reply::Missing => 'M',
        Reply::Flat => 'F',
        Reply::Moved => 'V',
        Reply::Occupied => 'O',
    }
}

// The history by tags, each with its reply, and behind it the replies that a set of points gives.
fn put_history(alloc: Global, answer: &mut Answer, history: &[Entry]) {
    for entry in history {
        write!(answer, " {}{}", entry.tag, letter(entry.reply));
    }
    answer.put(" by sets ");
    let mut set = PointSet::new(alloc);
    for entry in history {
        answer.put(letter(set.reply_of(entry.edit)));
        if set.after(entry.edit).is_err() {
            answer.fail();
        }
    }
}

// The history of a mesh, put together of the one list that a hold gives.
fn merged(alloc: Global, mesh: &Mesh) -> Result<Vec<Entry>, AllocError> {
    let hold = mesh.hold();
    let lists = [hold.history(alloc)?];
    merge(alloc, &lists)
}

// The history of a mesh, the points that it leaves, and their cells.
fn put_mesh(alloc: Global, answer: &mut Answer, mesh: &Mesh) -> Option<()> {
    let entries = answer.got(merged(alloc, mesh))?;
    let left = answer.got(points(alloc, mesh))?;
    let cells = answer.got(complex(alloc, mesh))?;
    put_history(alloc, answer, &entries);
    answer.put("; points");
    for p in &left {
        put_point(answer, *p);
    }
    answer.put("; cells");
    put_cells(answer, &left, &cells);
    Some(())
}

/// Answers a case of a mesh.
pub(crate) fn put(alloc: Global, answer: &mut Answer, lists: &str) -> Option<()> {
    let mesh = mesh_of(alloc, answer, lists)?;
    put_mesh(alloc, answer, &mesh)
}

/// Answers a case of a mesh whose points are put in at once.
pub(crate) fn put_begun(alloc: Global, answer: &mut Answer, lists: &str) -> Option<()> {
    let mesh = begun_of(alloc, answer, lists)?;
    put_mesh(alloc, answer, &mesh)
}

// Takes a bucket out, if it is in hand.
fn take_out(hold: &mut Hold, b: u32)
    ensures { (s : List ℕ) → Shows hold.old s → Shows hold.new s }
{
    if hold.has(b) {
        let _ = hold.take(b);
    }
}

// Takes out the buckets whose numbers are among these, or where the flag is not set, are not.
fn take_those(hold: &mut Hold, numbers: &[u64], among: bool)
    ensures { (s : List ℕ) → Shows hold.old s → Shows hold.new s }
{
    for b in 0..hold.grid().count() {
        if numbers.contains(&u64::from(b)) == among {
            take_out(hold, b);
        }
    }
}

// Leaves the buckets in hand that the words name.
pub(crate) fn keep_only(answer: &mut Answer, hold: &mut Hold, words: &str)
    ensures { (s : List ℕ) → Shows hold.old s → Shows hold.new s }
{
    if words != "all" {
        match words.strip_prefix("but ") {
            Some(others) => take_those(hold, &answer.all(others), true),
            None => take_those(hold, &answer.all(words), false),
        }
    }
}
