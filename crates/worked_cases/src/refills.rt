//! What goes and what comes when a point is taken.

ghost use Rattle.std.specs.Prelude.{◌≡◌, ℕ, true, List, IsSome};
ghost use Rattle.point_order.specs.Sets.{IsIn};
ghost use Rattle.cell_store.specs.Buckets.{bucket_at};
ghost use Rattle.bucket_grid.specs.Grids.{bucket_of};
ghost use Rattle.cell_store.specs.Shares.{Shows, ShowsSome};

use crate::meshes::{keep_only, mesh_of};
use crate::reading::{at, list_at};
use crate::telling::{Answer, put_cells};
use cell_store::Hold;
use one_mesh::points;
use point_order::{Cell, Point};
use std::alloc::Global;
use vertex_removal::{Refill, RefillTurn};

// Cells in order, by the places of their points.
fn put_sorted(answer: &mut Answer, points: &[Point], mut cells: Vec<Cell>) {
    cells.sort_unstable();
    put_cells(answer, points, &cells);
}

// Whether the point's bucket is in hand, and the point is there.
fn is_there(hold: &Hold, v: Point) -> bool
    ensures held { result ≡ true → IsSome (bucket_at hold.now.places (bucket_of hold.now.grid v)) }
    ensures there { result ≡ true → (s : List ℕ) → Shows hold.now s → IsIn v s }
{
    hold.has(hold.grid().bucket_of(v)) && hold.holds_point(v)
}

// What is answered for a point over the buckets in hand.
fn put_turn(
    alloc: Global,
    answer: &mut Answer,
    hold: &Hold,
    points: &[Point],
    v: Point,
) -> Option<()>
    requires { ShowsSome hold.now }
{
    if !is_there(hold, v) {
        answer.put("no point in hand");
        return None;
    }
    let mut refill = answer.got(Refill::start(alloc, v))?;
    match answer.got(refill.advance(alloc, hold))? {
        RefillTurn::Done(change) => {
            answer.put("gone");
            put_sorted(answer, points, change.gone);
            answer.put("; fresh");
            put_sorted(answer, points, change.fresh);
        }
        RefillTurn::Flat => answer.put("flat"),
        RefillTurn::Need(b) => write!(answer, "needs {b}"),
    }
    Some(())
}

/// Answers a case of a refill.
pub(crate) fn put(alloc: Global, answer: &mut Answer, lists: &str) -> Option<()> {
    let v = at(list_at(lists, 3), 0)?;
    let mesh = mesh_of(alloc, answer, lists)?;
    let points = answer.got(points(alloc, &mesh))?;
    let mut hold = mesh.into_hold();
    keep_only(answer, &mut hold, list_at(lists, 2));
    put_turn(alloc, answer, &hold, &points, v)
}
