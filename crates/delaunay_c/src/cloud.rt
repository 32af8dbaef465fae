//! The mesh of a cloud of places, and the least alphas of its faces.

ghost use Rattle.std.specs.Prelude.{◌≡◌, ◌≢◌, ◌<◌, ◌≤◌, ◌⊎◌, drop, take, length};
ghost use Rattle.mesh_rows.specs.Meshes.{AreFiltered, AreFlat, AreMany, AreSizesOfFaces, AreSizesOfMesh, HasOutside};
ghost use Rattle.mesh_rows.specs.Meshes.{IsMesh};
ghost use Rattle.mesh_rows.specs.Rooms.{LacksFaceRoom, LacksMeshRoom};

use alpha_complex::FaceAlphas;
use mesh_rows::{
    CellRow, EdgeRow, FaceSizes, MeshSizes, Place, Stop, TriangleRow, face_sizes, lacks_face_room,
    lacks_mesh_room, levels_of, mesh_of, mesh_sizes, put_faces, put_mesh,
};
use std::alloc::Global;

/// The mesh of the points at the given places, in any order, of which some may be equal: the points, ascending, each
/// once; the tetrahedra by the numbers of their points; the tetrahedra across from those points, or 2^32 - 1; and the
/// triangles of the hull.
///
/// Answers 0 where all is done; else 1: want of memory, 2: a coordinate is not 0 to 16383, which is told first, 3: no
/// four of the points are independent, 4: a room has too few rows, and the sizes tell how many are wanted, 6: 32 bits
/// do not number the points, or the tetrahedra and hull triangles together. Then the rooms are as before. What is
/// behind the rows of a room always is.
#[unsafe(no_mangle)]
pub extern "C" fn delaunay_c_mesh(
    alloc: Global,
    given: &[Place],
    points: &mut [Place],
    cells: &mut [CellRow],
    neighbours: &mut [CellRow],
    hull: &mut [TriangleRow],
    sizes: &mut MeshSizes,
) -> u8
    ensures done { result ≡ 0 → IsMesh given.now (take sizes.new.points points.new) (take sizes.new.cells cells.new)
        (take sizes.new.cells neighbours.new) (take sizes.new.hull hull.new) }
    ensures sized { result ≡ 0 → AreSizesOfMesh given.now sizes.new }
    ensures outside { result ≡ 2 → HasOutside given.now }
    ensures first { HasOutside given.now → result ≡ 2 }
    ensures flat { result ≡ 3 → AreFlat given.now }
    ensures many { result ≡ 6 → AreMany given.now }
    ensures wanted { result ≡ 4 → AreSizesOfMesh given.now sizes.new }
    ensures lacks { result ≡ 4 → LacksMeshRoom sizes.new (length points.old) (length cells.old)
        (length neighbours.old) (length hull.old) }
    ensures statuses { (result ≤ 4) ⊎ (result ≡ 6) }
    ensures sizes { 0 < result → result ≢ 4 → sizes.new ≡ sizes.old }
    ensures points { 0 < result → points.new ≡ points.old }
    ensures cells { 0 < result → cells.new ≡ cells.old }
    ensures neighbours { 0 < result → neighbours.new ≡ neighbours.old }
    ensures hull { 0 < result → hull.new ≡ hull.old }
    ensures points_behind { result ≡ 0 → drop sizes.new.points points.new ≡ drop sizes.new.points points.old }
    ensures cells_behind { result ≡ 0 → drop sizes.new.cells cells.new ≡ drop sizes.new.cells cells.old }
    ensures neighbours_behind { result ≡ 0 → drop sizes.new.cells neighbours.new ≡ drop sizes.new.cells neighbours.old }
    ensures hull_behind { result ≡ 0 → drop sizes.new.hull hull.new ≡ drop sizes.new.hull hull.old }
{
    match mesh_of(alloc, given) {
        Ok(made) => {
            *sizes = mesh_sizes(&made);
            if lacks_mesh_room(sizes, points, cells, neighbours, hull) {
                return 4;
            }
            put_mesh(made, points, cells, neighbours, hull);
            0
        }
        Err(Stop::Memory) => 1,
        Err(Stop::Outside) => 2,
        Err(Stop::Flat) => 3,
        Err(Stop::Full) => 6,
    }
}

/// The faces of the complex of the points at the given places, each by the numbers of its points, with the least alphas
/// at which it is admitted, at which some cell around it is, and at which all are: squared radii in sixteenths, 2^34 or
/// more where there is none. The points are numbered as those of `delaunay_c_mesh`, and the tetrahedra, of which each
/// has one number, are in its order.
///
/// Answers as `delaunay_c_mesh` does.
#[unsafe(no_mangle)]
pub extern "C" fn delaunay_c_alphas(
    alloc: Global,
    given: &[Place],
    point_alphas: &mut [FaceAlphas],
    edges: &mut [EdgeRow],
    edge_alphas: &mut [FaceAlphas],
    triangles: &mut [TriangleRow],
    triangle_alphas: &mut [FaceAlphas],
    cell_alphas: &mut [u64],
    sizes: &mut FaceSizes,
) -> u8
    ensures done { result ≡ 0 → AreFiltered given.now (take sizes.new.points point_alphas.new)
        (take sizes.new.edges edges.new) (take sizes.new.edges edge_alphas.new)
        (take sizes.new.triangles triangles.new) (take sizes.new.triangles triangle_alphas.new)
        (take sizes.new.cells cell_alphas.new) }
    ensures sized { result ≡ 0 → AreSizesOfFaces given.now sizes.new }
    ensures outside { result ≡ 2 → HasOutside given.now }
    ensures first { HasOutside given.now → result ≡ 2 }
    ensures flat { result ≡ 3 → AreFlat given.now }
    ensures many { result ≡ 6 → AreMany given.now }
    ensures wanted { result ≡ 4 → AreSizesOfFaces given.now sizes.new }
    ensures lacks { result ≡ 4 → LacksFaceRoom sizes.new (length point_alphas.old) (length edges.old)
        (length edge_alphas.old) (length triangles.old) (length triangle_alphas.old) (length cell_alphas.old) }
    ensures statuses { (result ≤ 4) ⊎ (result ≡ 6) }
    ensures sizes { 0 < result → result ≢ 4 → sizes.new ≡ sizes.old }
    ensures point_alphas { 0 < result → point_alphas.new ≡ point_alphas.old }
    ensures edges { 0 < result → edges.new ≡ edges.old }
    ensures edge_alphas { 0 < result → edge_alphas.new ≡ edge_alphas.old }
    ensures triangles { 0 < result → triangles.new ≡ triangles.old }
    ensures triangle_alphas { 0 < result → triangle_alphas.new ≡ triangle_alphas.old }
    ensures cell_alphas { 0 < result → cell_alphas.new ≡ cell_alphas.old }
    ensures point_alphas_behind { result ≡ 0 → drop sizes.new.points point_alphas.new
        ≡ drop sizes.new.points point_alphas.old }
    ensures edges_behind { result ≡ 0 → drop sizes.new.edges edges.new ≡ drop sizes.new.edges edges.old }
    ensures edge_alphas_behind { result ≡ 0 → drop sizes.new.edges edge_alphas.new
        ≡ drop sizes.new.edges edge_alphas.old }
    ensures triangles_behind { result ≡ 0 → drop sizes.new.triangles triangles.new
        ≡ drop sizes.new.triangles triangles.old }
    ensures triangle_alphas_behind { result ≡ 0 → drop sizes.new.triangles triangle_alphas.new
        ≡ drop sizes.new.triangles triangle_alphas.old }
    ensures cell_alphas_behind { result ≡ 0 → drop sizes.new.cells cell_alphas.new
        ≡ drop sizes.new.cells cell_alphas.old }
{
    match levels_of(alloc, given) {
        Ok(levels) => {
            *sizes = face_sizes(&levels);
            if lacks_face_room(
                sizes,
                point_alphas,
                edges,
                edge_alphas,
                triangles,
                triangle_alphas,
                cell_alphas,
            ) {
                return 4;
            }
            put_faces(
                levels,
                point_alphas,
                edges,
                edge_alphas,
                triangles,
                triangle_alphas,
                cell_alphas,
            );
            0
        }
        Err(Stop::Memory) => 1,
        Err(Stop::Outside) => 2,
        Err(Stop::Flat) => 3,
        Err(Stop::Full) => 6,
    }
}
