//! The points, cells, neighbours and hull of a complex.

ghost use Rattle.std.specs.Prelude.{◌≡◌, length, IfOk, IfErr, IsErrOf};
ghost use Rattle.mesh_rows.specs.Meshes.{AreMeshRows, HasOutside, IsStopCause, IsCloud, IsMesh};
ghost use Rattle.mesh_rows.specs.declared.stop.Stop.TheVariants.{Outside};

use crate::across::neighbours;
use crate::cloud::cloud_of;
use crate::levels::full_count;
use crate::numbers::{cells, hull, places};
use crate::rows::{CellRow, Place, TriangleRow};
use crate::stop::Stop;
use point_order::{Cell, Point};
use std::alloc::{AllocError, Global};

/// The rows of a mesh.
#[derive(Drop)]
pub struct Made {
    pub points: Vec<Place>,
    pub cells: Vec<CellRow>,
    pub neighbours: Vec<CellRow>,
    pub hull: Vec<TriangleRow>,
}

/// The rows of a solid set of points and of the cells of its complex.
///
/// # Errors
/// Want of memory.
pub fn rows_of(alloc: Global, set: &[Point], all: &[Cell]) -> Result<Made, AllocError>
    requires { IsCloud set.now all.now }
    ensures rows { IfOk result (λ m. AreMeshRows set.now m.points.items m.cells.items m.neighbours.items m.hull.items) }
    ensures count { IfOk result (λ m. length m.neighbours.items ≡ length m.cells.items) }
{
    let across = neighbours(alloc, all, full_count(all))?;
    let rows = cells(alloc, set, all)?;
    let outer = hull(alloc, set, all)?;
    let spots = places(alloc, set)?;
    Ok(Made {
        points: spots,
        cells: rows,
        neighbours: across,
        hull: outer,
    })
}

/// The mesh of the points at the given places.
///
/// # Errors
/// Each `Stop`.
pub fn mesh_of(alloc: Global, given: &[Place]) -> Result<Made, Stop>
    ensures mesh { IfOk result (λ m. IsMesh given.now m.points.items m.cells.items m.neighbours.items m.hull.items) }
    ensures count { IfOk result (λ m. length m.neighbours.items ≡ length m.cells.items) }
    ensures refused { IfErr result (λ stop. IsStopCause given.now stop) }
    ensures first { HasOutside given.now → IsErrOf result Outside }
{
    let cloud = cloud_of(alloc, given)?;
    let made = rows_of(alloc, &cloud.points, &cloud.cells)?;
    Ok(made)
}
