//! What the mesh of a handle tells.

ghost use Rattle.std.specs.Prelude.{◌≡◌, ◌∷◌, [], Some, IfErr, IfOk, IsErrOf, length};
ghost use Rattle.edit_history.specs.Histories.{replay};
ghost use Rattle.mesh_rows.specs.Meshes.{AreMeshRows, HasOutside};
ghost use Rattle.nearest_points.specs.Points.{IsNearest};
ghost use Rattle.mesh_handle.specs.Handles.{IsLack, IsMiss, IsToldOf, LiesAt, NearestIs, ShowsRows, row_of};
ghost use Rattle.mesh_handle.specs.declared.place.Location.TheVariants.{Inside};
ghost use Rattle.mesh_handle.specs.declared.refusal.Refusal.TheVariants.{Outside};

use crate::edits::point_of;
use crate::handle::MeshHandle;
use crate::refusal::Refusal;
use linked_mesh::{LinkedMesh, complex, locate, nearest, points};
use mesh_rows::{Made, Place, are_few, place_at, rows_of};
use point_order::{Cell, Point};
use std::alloc::Global;

/// Where a place lies in a mesh.
#[repr(C)]
#[derive(Clone, Copy)]
pub struct Located {
    /// 0: a point of the mesh stands there. 1: the place is inside the sphere of the tetrahedron `a b c d`. 2: it lies
    /// beyond the hull, and sees its triangle `a b c`.
    pub kind: u32,
    /// Of kind 0 the place itself.
    pub a: Place,
    pub b: Place,
    pub c: Place,
    pub d: Place,
}

// The rows of a mesh.
fn mesh_rows_of(alloc: Global, mesh: &LinkedMesh) -> Result<Made, Refusal>
    ensures rows { IfOk result (λ m. AreMeshRows (replay mesh.now) m.points.items m.cells.items
        m.neighbours.items m.hull.items) }
    ensures count { IfOk result (λ m. length m.neighbours.items ≡ length m.cells.items) }
    ensures cause { IfErr result (λ r. IsLack (Some mesh.now) r) }
{
    let set = points(alloc, mesh)?;
    let all = complex(alloc, mesh)?;
    if !are_few(&set, &all) {
        return Err(Refusal::Full);
    }
    let made = rows_of(alloc, &set, &all)?;
    Ok(made)
}

/// The rows of the mesh of a handle: its points, ascending, its cells, what lies across their facets, and its hull.
///
/// # Errors
/// `Refusal::Memory`, `Refusal::Empty`, and `Refusal::Full` where 32 bits do not number the points or the cells.
pub fn rows(alloc: Global, handle: &mut MeshHandle) -> Result<Made, Refusal>
    ensures rows { IfOk result (λ m. ShowsRows handle.old.mesh m.points.items m.cells.items m.neighbours.items
        m.hull.items) }
    ensures count { IfOk result (λ m. length m.neighbours.items ≡ length m.cells.items) }
    ensures same { handle.new.mesh ≡ handle.old.mesh }
    ensures cause { IfErr result (λ r. IsLack handle.old.mesh r) }
{
    match handle.take(alloc) {
        Some(mesh) => {
            let made = mesh_rows_of(alloc, &mesh);
            handle.put(alloc, mesh);
            made
        }
        None => Err(Refusal::Empty),
    }
}

// How a cell is told that is in conflict with a point.
fn cell_at(p: Point, cell: &Cell) -> Located
    ensures { result ≡ row_of p (Inside cell.now) }
{
    let here = place_at(p);
    match cell {
        Cell::Full(quad) => {
            let (a, b, c, d) = quad.corners();
            Located {
                kind: 1,
                a: place_at(a),
                b: place_at(b),
                c: place_at(c),
                d: place_at(d),
            }
        }
        Cell::Open(tri) => {
            let (a, b, c) = tri.corners();
            Located {
                kind: 2,
                a: place_at(a),
                b: place_at(b),
                c: place_at(c),
                d: here,
            }
        }
    }
}

// How it is told where a point lies in a mesh.
fn row_at(mesh: &LinkedMesh, p: Point) -> Located
    ensures { IsToldOf (replay mesh.now) p result }
{
    match locate(mesh, p) {
        None => {
            let here = place_at(p);
            Located {
                kind: 0,
                a: here,
                b: here,
                c: here,
                d: here,
            }
        }
        Some(cell) => cell_at(p, &cell),
    }
}

/// Where a place lies in the mesh of a handle. It takes no memory.
///
/// # Errors
/// `Refusal::Outside`, and else `Refusal::Empty`.
pub fn find(alloc: Global, handle: &mut MeshHandle, place: &Place) -> Result<Located, Refusal>
    ensures found { IfOk result (λ l. LiesAt handle.old.mesh place.now l) }
    ensures same { handle.new.mesh ≡ handle.old.mesh }
    ensures cause { IfErr result (λ r. IsMiss handle.old.mesh (place.now ∷ []) r) }
    ensures first { HasOutside (place.now ∷ []) → IsErrOf result Outside }
{
    let p = point_of(place)?;
    match handle.take(alloc) {
        Some(mesh) => {
            let located = row_at(&mesh, p);
            handle.put(alloc, mesh);
            Ok(located)
        }
        None => Err(Refusal::Empty),
    }
}

// The point of a mesh that is nearest to a place.
fn nearest_in(mesh: &LinkedMesh, p: Point) -> Point
    ensures { IsNearest (replay mesh.now) p result }
{
    nearest(mesh, p)
}

/// Where the point of the mesh of a handle lies that is nearest to a place, among those as near the one that comes
/// first by x, then y, then z. It takes no memory.
///
/// # Errors
/// `Refusal::Outside`, and else `Refusal::Empty`.
pub fn nearest_to(alloc: Global, handle: &mut MeshHandle, place: &Place) -> Result<Place, Refusal>
    ensures found { IfOk result (λ n. NearestIs handle.old.mesh place.now n) }
    ensures same { handle.new.mesh ≡ handle.old.mesh }
    ensures cause { IfErr result (λ r. IsMiss handle.old.mesh (place.now ∷ []) r) }
    ensures first { HasOutside (place.now ∷ []) → IsErrOf result Outside }
{
    let p = point_of(place)?;
    match handle.take(alloc) {
        Some(mesh) => {
            let near = place_at(nearest_in(&mesh, p));
            handle.put(alloc, mesh);
            Ok(near)
        }
        None => Err(Refusal::Empty),
    }
}
