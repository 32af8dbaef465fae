//! What a mesh leaves, once it is let go.

ghost use Rattle.std.specs.Prelude.{◌≡◌, IfOk};
ghost use Rattle.edit_history.specs.Histories.{IsLegal};
ghost use Rattle.delaunay_cli.specs.MeshLists.{AreLists};

use cell_store::Mesh;
use edit_history::Entry;
use linked_mesh::LinkedMesh;
use point_order::{Cell, Point};
use std::alloc::{AllocError, Global};

/// The history of a mesh, the points that it leaves, ascending, and their cells, in order.
#[derive(Drop)]
pub struct MeshLists {
    pub history: Vec<Entry>,
    pub points: Vec<Point>,
    pub cells: Vec<Cell>,
}

/// What a mesh without buckets leaves, whose history is legal. It is let go while it is read.
///
/// # Errors
/// Want of memory.
pub fn lists_of_linked(alloc: Global, mesh: LinkedMesh) -> Result<MeshLists, AllocError>
    requires { IsLegal mesh }
    ensures history { IfOk result (λ lists. lists.history.items ≡ mesh) }
    ensures lists { IfOk result AreLists }
{
    let points = linked_mesh::points(alloc, &mesh)?;
    let (history, cells) = linked_mesh::into_parts(alloc, mesh)?;
    Ok(MeshLists {
        history,
        points,
        cells,
    })
}

/// The same of a mesh by buckets.
///
/// # Errors
/// Want of memory.
pub fn lists_of_mesh(alloc: Global, mesh: Mesh) -> Result<MeshLists, AllocError>
    requires { IsLegal mesh.history }
    ensures history { IfOk result (λ lists. lists.history.items ≡ mesh.history) }
    ensures lists { IfOk result AreLists }
{
    let points = one_mesh::points(alloc, &mesh)?;
    let (history, cells) = one_mesh::into_parts(alloc, mesh)?;
    Ok(MeshLists {
        history,
        points,
        cells,
    })
}
