//! What the mesh of a handle tells.

ghost use Rattle.std.specs.Prelude.{◌≡◌, ◌≢◌, ◌<◌, ◌≤◌, ◌⊎◌, ◌∷◌, [], None, drop, length, take};
ghost use Rattle.mesh_rows.specs.Meshes.{HasOutside};
ghost use Rattle.mesh_rows.specs.Rooms.{LacksMeshRoom};
ghost use Rattle.mesh_handle.specs.Handles.{HasMany, LiesAt, NearestIs, ShowsRows};
ghost use Rattle.delaunay_c.specs.Sizes.{AreSizesOf};

use crate::codes::status_of;
use mesh_handle::{Located, MeshHandle, find, nearest_to, rows};
use mesh_rows::{CellRow, MeshSizes, Place, TriangleRow, lacks_mesh_room, mesh_sizes, put_mesh};
use std::alloc::Global;

/// How many points, cells and triangles of the hull the mesh of the handle has.
///
/// Answers 0 where they are told; else 1: want of memory, 5: the handle has no mesh, 6: 32 bits do not number its
/// points, or its tetrahedra and hull triangles together. Then the sizes are as before.
#[unsafe(no_mangle)]
pub extern "C" fn delaunay_c_counts(
    alloc: Global,
    handle: &mut MeshHandle,
    sizes: &mut MeshSizes,
) -> u8
    ensures done { result ≡ 0 → AreSizesOf handle.old.mesh sizes.new }
    ensures same { handle.new.mesh ≡ handle.old.mesh }
    ensures untold { 0 < result → sizes.new ≡ sizes.old }
    ensures empty { result ≡ 5 → handle.old.mesh ≡ None }
    ensures many { result ≡ 6 → HasMany handle.old.mesh }
    ensures statuses { (result ≤ 1) ⊎ (result ≡ 5) ⊎ (result ≡ 6) }
{
    match rows(alloc, handle) {
        Ok(made) => {
            *sizes = mesh_sizes(&made);
            0
        }
        Err(refusal) => status_of(refusal),
    }
}

/// The points, tetrahedra, neighbours and hull of the mesh of the handle, as `delaunay_c_mesh` tells them.
///
/// Answers 0 where all is done; else 1: want of memory, 4: a room has too few rows, and the sizes tell how many are
/// wanted, 5: the handle has no mesh, 6: 32 bits do not number its points, or its tetrahedra and hull triangles
/// together. Then the rooms are as before. What is behind the rows of a room always is.
#[unsafe(no_mangle)]
pub extern "C" fn delaunay_c_complex(
    alloc: Global,
    handle: &mut MeshHandle,
    points: &mut [Place],
    cells: &mut [CellRow],
    neighbours: &mut [CellRow],
    hull: &mut [TriangleRow],
    sizes: &mut MeshSizes,
) -> u8
    ensures done { result ≡ 0 → ShowsRows handle.old.mesh (take sizes.new.points points.new)
        (take sizes.new.cells cells.new) (take sizes.new.cells neighbours.new) (take sizes.new.hull hull.new) }
    ensures sized { result ≡ 0 → AreSizesOf handle.old.mesh sizes.new }
    ensures wanted { result ≡ 4 → AreSizesOf handle.old.mesh sizes.new }
    ensures lacks { result ≡ 4 → LacksMeshRoom sizes.new (length points.old) (length cells.old)
        (length neighbours.old) (length hull.old) }
    ensures same { handle.new.mesh ≡ handle.old.mesh }
    ensures empty { result ≡ 5 → handle.old.mesh ≡ None }
    ensures many { result ≡ 6 → HasMany handle.old.mesh }
    ensures statuses { (result ≤ 1) ⊎ (result ≡ 4) ⊎ (result ≡ 5) ⊎ (result ≡ 6) }
    ensures sizes { 0 < result → result ≢ 4 → sizes.new ≡ sizes.old }
    ensures points { 0 < result → points.new ≡ points.old }
    ensures cells { 0 < result → cells.new ≡ cells.old }
    ensures neighbours { 0 < result → neighbours.new ≡ neighbours.old }
    ensures hull { 0 < result → hull.new ≡ hull.old }
    ensures points_behind { result ≡ 0 → drop sizes.new.points points.new ≡ drop sizes.new.points points.old }
    ensures cells_behind { result ≡ 0 → drop sizes.new.cells cells.new ≡ drop sizes.new.cells cells.old }
    ensures neighbours_behind { result ≡ 0 → drop sizes.new.cells neighbours.new ≡ drop sizes.new.cells neighbours.old }
    ensures hull_behind { result ≡ 0 → drop sizes.new.hull hull.new ≡ drop sizes.new.hull hull.old }
{
    match rows(alloc, handle) {
        Ok(made) => {
            *sizes = mesh_sizes(&made);
            if lacks_mesh_room(sizes, points, cells, neighbours, hull) {
                return 4;
            }
            put_mesh(made, points, cells, neighbours, hull);
            0
        }
        Err(refusal) => status_of(refusal),
    }
}

/// Where a place lies in the mesh of the handle. It takes no memory.
///
/// Answers 0 where this is told; else 2: a coordinate is not 0 to 16383, which is told first, 5: the handle has no
/// mesh. Then what is located is as before.
#[unsafe(no_mangle)]
pub extern "C" fn delaunay_c_locate(
    alloc: Global,
    handle: &mut MeshHandle,
    place: &Place,
    located: &mut Located,
) -> u8
    ensures done { result ≡ 0 → LiesAt handle.old.mesh place.now located.new }
    ensures same { handle.new.mesh ≡ handle.old.mesh }
    ensures untold { 0 < result → located.new ≡ located.old }
    ensures outside { result ≡ 2 → HasOutside (place.now ∷ []) }
    ensures first { HasOutside (place.now ∷ []) → result ≡ 2 }
    ensures empty { result ≡ 5 → handle.old.mesh ≡ None }
    ensures statuses { (result ≡ 0) ⊎ (result ≡ 2) ⊎ (result ≡ 5) }
{
    match find(alloc, handle, place) {
        Ok(told) => {
            *located = told;
            0
        }
        Err(refusal) => status_of(refusal),
    }
}

/// The point of the mesh of the handle that is nearest to a place, among those as near the one that comes first by x,
/// then y, then z. It takes no memory.
///
/// Answers as `delaunay_c_locate` does.
#[unsafe(no_mangle)]
pub extern "C" fn delaunay_c_nearest(
    alloc: Global,
    handle: &mut MeshHandle,
    place: &Place,
    nearest: &mut Place,
) -> u8
    ensures done { result ≡ 0 → NearestIs handle.old.mesh place.now nearest.new }
    ensures same { handle.new.mesh ≡ handle.old.mesh }
    ensures untold { 0 < result → nearest.new ≡ nearest.old }
    ensures outside { result ≡ 2 → HasOutside (place.now ∷ []) }
    ensures first { HasOutside (place.now ∷ []) → result ≡ 2 }
    ensures empty { result ≡ 5 → handle.old.mesh ≡ None }
    ensures statuses { (result ≡ 0) ⊎ (result ≡ 2) ⊎ (result ≡ 5) }
{
    match nearest_to(alloc, handle, place) {
        Ok(told) => {
            *nearest = told;
            0
        }
        Err(refusal) => status_of(refusal),
    }
}
