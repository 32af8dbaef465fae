//! The nearest point to each of a list of places.

ghost use Rattle.std.specs.Prelude.{IfOk};
ghost use Rattle.edit_history.specs.Histories.{replay};
ghost use Rattle.nearest_points.specs.Points.{AreNear, IsNear};

use crate::mesh::{LinkedMesh, nearest};
use nearest_points::Near;
use point_order::Point;
use std::alloc::{AllocError, Global};

// The answer to a query.
fn answer_to(mesh: &LinkedMesh, q: Point) -> Near
    ensures { IsNear (replay mesh.now) q result }
{
    Near::at(q, nearest(mesh, q))
}

/// The answer to each query, in their order: the nearest point of the mesh, among those as near the one with the least
/// key, and how far it is.
///
/// # Errors
/// Want of memory.
pub fn nearest_to_each(
    alloc: Global,
    mesh: &LinkedMesh,
    queries: &[Point],
) -> Result<Vec<Near>, AllocError>
    ensures { IfOk result (λ nears. AreNear (replay mesh.now) queries.now nears.items) }
{
    let mut nears = Vec::with_capacity(alloc, queries.len())?;
    for q in queries {
        nears.push(answer_to(mesh, *q))?;
    }
    Ok(nears)
}
