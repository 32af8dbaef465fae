//! Lists beside the complex that is made of the points.

ghost use Rattle.std.specs.Prelude.{◌≡◌, ◌↔◌, IfOk, IsTrue, MatchOption, false, true, slice_index_or};
ghost use Rattle.std.specs.List.Sorted.{IsStrictlySortedBy};
ghost use Rattle.point_order.specs.CellOrder.{cell_cmp};
ghost use Rattle.point_order.specs.Sets.{IsAscending};
ghost use Rattle.point_order.specs.Solid.{is_solid as is_solid_of};
ghost use Rattle.mesh_check.specs.Flaws.{as_cells};
ghost use Rattle.mesh_check.specs.Laws.{StandsBeside};

use cell_lists::QuadList;
use cloud_cells::{Compared, Known, Made};
use edit_history::find_four;
use point_order::{Point, Tri};
use std::alloc::{AllocError, Global};

// Whether four of the points are independent.
fn is_solid(points: &[Point]) -> bool
    ensures { result ≡ is_solid_of points.now }
{
    find_four(points).is_ok()
}

// Whether points ascend.
fn is_ascending(points: &[Point]) -> bool
    ensures { IsTrue result ↔ IsAscending points.now }
{
    for place in 1..points.len() {
        if points[place].key() <= points[place - 1].key() {
            return false;
        }
    }
    true
}

/// The complex of points, where they ascend and four of them are independent: what `tell` can be given, made before the
/// lists are there. There is none exactly where they do not ascend or are not solid.
///
/// # Errors
/// Want of memory.
pub fn made_of(alloc: Global, points: &[Point]) -> Result<Option<Made>, AllocError>
    ensures { IfOk result (λ made. MatchOption made (¬ (IsAscending points.now × (is_solid_of points.now ≡ true)))
        (λ m. m ≡ points.now)) }
{
    if is_ascending(points) && is_solid(points) {
        return Ok(Some(Made::of_points(alloc, points)?));
    }
    Ok(None)
}

// The lists, which stand in order, beside the complex of the points, where these are solid. It may have been made
// before. It is far faster than a search for a flaw, and that the complex is made right is proved: the lists take no
// part in it.
pub(crate) fn beside_complex(
    alloc: Global,
    made: Option<Made>,
    points: &[Point],
    cells: &QuadList,
    hull: &[Tri],
) -> Result<Compared, AllocError>
    requires points { IsAscending points.now }
    requires order { IsStrictlySortedBy cell_cmp (as_cells cells.now hull.now) }
    ensures { IfOk result (StandsBeside points.now cells.now hull.now) }
{
    if let Some(made) = made {
        if made.is_of(points) {
            return made.compared(alloc, cells, hull);
        }
    }
    if is_solid(points) {
        return Made::of_points(alloc, points)?.compared(alloc, cells, hull);
    }
    Ok(Compared::Other(Known {
        cells: Vec::new(alloc),
        hull: Vec::new(alloc),
    }))
}

// Whether the cell at a place is marked.
pub(crate) fn is_marked(marks: &[bool], place: usize) -> bool
    ensures { result ≡ slice_index_or marks.now place false }
{
    place < marks.len() && marks[place]
}
