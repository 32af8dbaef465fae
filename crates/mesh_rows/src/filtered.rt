//! A complex and all of its faces, by one triangulation.

ghost use Rattle.std.specs.Prelude.{◌≡◌, length, IfErr, IfOk, IsErrOf};
ghost use Rattle.mesh_rows.specs.Meshes.{AreFiltered, HasOutside, IsMesh, IsStopCause};
ghost use Rattle.mesh_rows.specs.declared.stop.Stop.TheVariants.{Outside};

use crate::cloud::cloud_of;
use crate::levels::{Levels, face_rows, held_of};
use crate::mesh::{Made, rows_of};
use crate::rows::Place;
use crate::stop::Stop;
use std::alloc::Global;

/// The rows of a mesh, and those of its faces.
#[derive(Drop)]
pub struct Filtered {
    pub mesh: Made,
    pub faces: Levels,
}

/// The mesh of the points at the given places, and its faces.
///
/// # Errors
/// Each `Stop`.
pub fn filtered_of(alloc: Global, given: &[Place]) -> Result<Filtered, Stop>
    ensures mesh { IfOk result (λ f. IsMesh given.now f.mesh.points.items f.mesh.cells.items f.mesh.neighbours.items
        f.mesh.hull.items) }
    ensures faces { IfOk result (λ f. AreFiltered given.now f.faces.point_alphas.items f.faces.edges.items
        f.faces.edge_alphas.items f.faces.triangles.items f.faces.triangle_alphas.items f.faces.cell_alphas.items) }
    ensures neighbour_count { IfOk result (λ f. length f.mesh.neighbours.items ≡ length f.mesh.cells.items) }
    ensures edge_count { IfOk result (λ f. length f.faces.edge_alphas.items ≡ length f.faces.edges.items) }
    ensures triangle_count { IfOk result (λ f. length f.faces.triangle_alphas.items
        ≡ length f.faces.triangles.items) }
    ensures refused { IfErr result (λ stop. IsStopCause given.now stop) }
    ensures first { HasOutside given.now → IsErrOf result Outside }
{
    let cloud = cloud_of(alloc, given)?;
    // The faces first, beside which much more is made for the time being than beside the mesh.
    let held = held_of(alloc, &cloud.points, &cloud.cells)?;
    let faces = face_rows(alloc, &cloud.points, held)?;
    let mesh = rows_of(alloc, &cloud.points, &cloud.cells)?;
    Ok(Filtered { mesh, faces })
}
