//! The mesh of one owner: a set of points with its cells, and the history that left it.

ghost use Rattle.std.specs.Prelude.{◌≡◌, ◌↔◌, ◌<◌, ◌≤◌, ◌^◌, ◌∷◌, ◌++◌, [], None, Some, length, option_map, true, IfOk};
ghost use Rattle.std.specs.Prelude.{OnErr, OnOk};
ghost use Rattle.std.specs.Vec.{vec_capacity, vec_len};
ghost use Rattle.point_order.specs.Complex.{complex as complex_of};
ghost use Rattle.point_order.specs.Sets.{IsAscending, ascending, is_among};
ghost use Rattle.point_order.specs.Solid.{is_solid};
ghost use Rattle.point_order.specs.declared.cell.Cell.{Cell as CellParts};
ghost use Rattle.del_laws.specs.Keys.{AreKeys};
ghost use Rattle.edit_history.specs.Edits.{reply_to};
ghost use Rattle.edit_history.specs.Histories.{replay};
ghost use Rattle.edit_history.specs.OneThread.{one_thread, places};
ghost use Rattle.edit_history.specs.Opening.{opening_four};
ghost use Rattle.hole_laws.specs.Edits.{GoesFrom};
ghost use Rattle.nearest_points.specs.Points.{IsNearest};
ghost use Rattle.linked_mesh.specs.Applied.{edited};

use crate::set::LinkedSet;
use edit_history::laws::{one_thread_is_legal, solidity_is_of_the_set};
use edit_history::{Edit, Entry, Receipt};
use point_history::{history_of_points, set_of};
use point_order::{Cell, Point};
use std::alloc::{AllocError, Global};
use std::marker::Model;

/// The mesh of a set of points that one owner edits. Contracts see it as its history.
#[derive(Drop)]
pub struct LinkedMesh {
    set: LinkedSet,
    entries: Vec<Entry>,
}

impl Model for LinkedMesh {
    ghost use Rattle.std.specs.Prelude.{◌≡◌, List};
    ghost use Rattle.edit_history.specs.declared.history.Entry.{Entry};
    ghost use Rattle.edit_history.specs.Histories.{replay};

    ghost Value = { List Entry };

    ghost view = { λ m. m.entries.items };

    ghost invariant = { λ m. m.set ≡ replay m.entries.items };
}

/// The mesh of a history that is there already, and of the points that it leaves, four of which are independent.
///
/// # Errors
/// Want of memory.
pub fn of_history(
    alloc: Global,
    entries: Vec<Entry>,
    points: &[Point],
) -> Result<LinkedMesh, AllocError>
    requires left { points.now ≡ replay entries.items }
    requires solid { is_solid points.now ≡ true }
    ensures { IfOk result (λ mesh. mesh ≡ entries.items) }
{
    let set = LinkedSet::of_points(alloc, points)?;
    Ok(LinkedMesh { set, entries })
}

/// The mesh of a cloud, made at once: its history is that of one thread which adds the points, the opening four first,
/// each by 0 with the place of its point in the list for a tag.
///
/// `four` is to be what `find_four` gives, and there are to be at most 2^32 points.
///
/// # Errors
/// Want of memory.
pub fn begin_cloud(
    alloc: Global,
    points: &[Point],
    four: [usize; 4],
) -> Result<LinkedMesh, AllocError>
    requires found { option_map places (opening_four points.now) ≡ Some four }
    requires small { length points.now ≤ 2 ^ 32 }
    ensures { IfOk result (λ mesh. mesh ≡ one_thread points.now []) }
{
    one_thread_is_legal();
    solidity_is_of_the_set();
    let sorted = set_of(alloc, points)?;
    let set = LinkedSet::of_points(alloc, &sorted)?;
    let entries = history_of_points(alloc, points, four)?;
    Ok(LinkedMesh { set, entries })
}

// Puts an entry behind the others, for which there is room.
fn push_entry(entries: &mut Vec<Entry>, entry: Entry)
    requires { vec_len entries.old < vec_capacity entries.old }
    ensures { entries.new.items ≡ entries.old.items ++ entry ∷ [] }
{
    match entries.extend_from_slice(&[entry]) {
        Ok(()) => {}
        Err(_) => unreachable!(),
    }
}

/// Makes an edit of a mesh, as the next entry by 0, and answers its number and its reply: an add is a duplicate where
/// its point is there, a take is missing where it is not, and flat where the rest would lie in one plane. A move is
/// missing where its point is not there, else occupied where its new place is taken, else flat where what it leaves
/// would lie in one plane.
///
/// The mesh is to have less than 2^32 entries.
///
/// # Errors
/// Want of memory. The mesh is then as before.
pub fn apply(
    alloc: Global,
    mesh: &mut LinkedMesh,
    tag: u32,
    edit: Edit,
) -> Result<Receipt, AllocError>
    requires { length mesh.old < 2 ^ 32 }
    ensures applied { OnOk result (mesh.new ≡ edited mesh.old tag edit) }
    ensures number { IfOk result (λ r. r.number ≡ length mesh.old) }
    ensures reply { IfOk result (λ r. r.reply ≡ reply_to (replay mesh.old) edit) }
    ensures refused { OnErr result (mesh.new ≡ mesh.old) }
{
    let number = mesh.entries.len() as u64;
    mesh.entries.reserve(1)?;
    let again = edit;
    let reply = mesh.set.change(alloc, again)?;
    let receipt = Receipt { number, reply };
    let entry = receipt.entry(0, tag, edit);
    push_entry(&mut mesh.entries, entry);
    Ok(receipt)
}

/// How many entries the mesh's history has.
pub fn count(mesh: &LinkedMesh) -> u64
    ensures { result ≡ length mesh.now }
{
    mesh.entries.len() as u64
}

/// Whether a point is one of those that the mesh's history leaves. It takes no memory.
pub fn has_point(mesh: &LinkedMesh, p: Point) -> bool
    ensures { result ≡ is_among p (replay mesh.now) }
{
    mesh.set.has_point(p)
}

/// The mesh's history.
///
/// # Errors
/// Want of memory.
pub fn history(alloc: Global, mesh: &LinkedMesh) -> Result<Vec<Entry>, AllocError>
    ensures { IfOk result (λ entries. entries.items ≡ mesh.now) }
{
    Vec::from_slice(alloc, &mesh.entries)
}

/// The complex of the points that the mesh's history leaves: its cells, sorted. The points ascend, four of them are
/// independent, and each is the key of a point.
///
/// # Errors
/// Want of memory.
pub fn complex(alloc: Global, mesh: &LinkedMesh) -> Result<Vec<Cell>, AllocError>
    ensures cells { IfOk result (λ cells. cells.items ≡ complex_of (replay mesh.now)) }
    ensures ascending { IsAscending (replay mesh.now) }
    ensures solid { is_solid (replay mesh.now) ≡ true }
    ensures keys { AreKeys (replay mesh.now) }
{
    mesh.set.cells(alloc)
}

/// The history and the complex of a mesh that is given away, as `history` and `complex` give them.
///
/// # Errors
/// Want of memory.
pub fn into_parts(alloc: Global, mesh: LinkedMesh) -> Result<(Vec<Entry>, Vec<Cell>), AllocError>
    ensures history { IfOk result (λ parts. parts.0.items ≡ mesh) }
    ensures cells { IfOk result (λ parts. parts.1.items ≡ complex_of (replay mesh)) }
    ensures ascending { IsAscending (replay mesh) }
    ensures solid { is_solid (replay mesh) ≡ true }
    ensures keys { AreKeys (replay mesh) }
{
    let LinkedMesh { set, entries } = mesh;
    let cells = set.into_cells(alloc)?;
    Ok((entries, cells))
}

/// The points that the mesh's history leaves, ascending. Four of them are independent, and each is the key of a point.
///
/// # Errors
/// Want of memory.
pub fn points(alloc: Global, mesh: &LinkedMesh) -> Result<Vec<Point>, AllocError>
    ensures points { IfOk result (λ points. points.items ≡ replay mesh.now) }
    ensures ascending { IsAscending (replay mesh.now) }
    ensures solid { is_solid (replay mesh.now) ≡ true }
    ensures keys { AreKeys (replay mesh.now) }
{
    mesh.set.points(alloc)
}

/// A cell with which a point at the place would be in conflict, found by a walk: a tetrahedron whose sphere it is
/// inside, or, where it lies beyond the hull, a triangle that it sees. None where a point of the mesh stands there. It
/// takes no memory.
pub fn locate(mesh: &LinkedMesh, p: Point) -> Option<Cell>
    ensures vertex { result ≡ None ↔ (is_among p (replay mesh.now) ≡ true) }
    ensures inside { (cell : CellParts) → result ≡ Some cell → GoesFrom (replay mesh.now) p cell }
{
    mesh.set.locate(p)
}

/// The point of the mesh that is nearest to a place, among those as near the one with the least key.
///
/// It begins in a cell that lies near; that only makes the walk short. It takes no memory.
pub fn nearest(mesh: &LinkedMesh, q: Point) -> Point
    ensures { IsNearest (replay mesh.now) q result }
{
    mesh.set.nearest(q)
}
