//! The mesh of a cloud of places and the least alphas of its faces, by one triangulation.

ghost use Rattle.std.specs.Prelude.{◌≡◌, ◌≢◌, ◌<◌, ◌≤◌, ◌⊎◌, drop, take, length};
ghost use Rattle.mesh_rows.specs.Meshes.{AreFiltered, AreFlat, AreMany, AreSizesOfFaces, AreSizesOfMesh, HasOutside};
ghost use Rattle.mesh_rows.specs.Meshes.{IsMesh};
ghost use Rattle.mesh_rows.specs.Rooms.{LacksFaceRoom, LacksMeshRoom};

use alpha_complex::FaceAlphas;
use mesh_rows::{
    CellRow, EdgeRow, FaceSizes, Filtered, MeshSizes, Place, Stop, TriangleRow, face_sizes,
    filtered_of, lacks_face_room, lacks_mesh_room, mesh_sizes, put_faces, put_mesh,
};
use std::alloc::Global;

/// What `delaunay_c_mesh` and `delaunay_c_alphas` tell of the same places, by one triangulation.
///
/// Answers as these do; 4 where a room of the one or of the other has too few rows.
#[unsafe(no_mangle)]
pub extern "C" fn delaunay_c_filtered(
    alloc: Global,
    given: &[Place],
    points: &mut [Place],
    cells: &mut [CellRow],
    neighbours: &mut [CellRow],
    hull: &mut [TriangleRow],
    point_alphas: &mut [FaceAlphas],
    edges: &mut [EdgeRow],
    edge_alphas: &mut [FaceAlphas],
    triangles: &mut [TriangleRow],
    triangle_alphas: &mut [FaceAlphas],
    cell_alphas: &mut [u64],
    sizes: &mut MeshSizes,
    face_counts: &mut FaceSizes,
) -> u8
    ensures mesh { result ≡ 0 → IsMesh given.now (take sizes.new.points points.new) (take sizes.new.cells cells.new)
        (take sizes.new.cells neighbours.new) (take sizes.new.hull hull.new) }
    ensures faces { result ≡ 0 → AreFiltered given.now (take face_counts.new.points point_alphas.new)
        (take face_counts.new.edges edges.new) (take face_counts.new.edges edge_alphas.new)
        (take face_counts.new.triangles triangles.new) (take face_counts.new.triangles triangle_alphas.new)
        (take face_counts.new.cells cell_alphas.new) }
    ensures sized { result ≡ 0 → AreSizesOfMesh given.now sizes.new }
    ensures faces_sized { result ≡ 0 → AreSizesOfFaces given.now face_counts.new }
    ensures outside { result ≡ 2 → HasOutside given.now }
    ensures first { HasOutside given.now → result ≡ 2 }
    ensures flat { result ≡ 3 → AreFlat given.now }
    ensures many { result ≡ 6 → AreMany given.now }
    ensures wanted { result ≡ 4 → AreSizesOfMesh given.now sizes.new }
    ensures faces_wanted { result ≡ 4 → AreSizesOfFaces given.now face_counts.new }
    ensures lacks { result ≡ 4 → LacksMeshRoom sizes.new (length points.old) (length cells.old) (length neighbours.old)
        (length hull.old) ⊎ LacksFaceRoom face_counts.new (length point_alphas.old) (length edges.old)
        (length edge_alphas.old) (length triangles.old) (length triangle_alphas.old) (length cell_alphas.old) }
    ensures statuses { (result ≤ 4) ⊎ (result ≡ 6) }
    ensures sizes { 0 < result → result ≢ 4 → sizes.new ≡ sizes.old }
    ensures face_counts { 0 < result → result ≢ 4 → face_counts.new ≡ face_counts.old }
    ensures points { 0 < result → points.new ≡ points.old }
    ensures cells { 0 < result → cells.new ≡ cells.old }
    ensures neighbours { 0 < result → neighbours.new ≡ neighbours.old }
    ensures hull { 0 < result → hull.new ≡ hull.old }
    ensures point_alphas { 0 < result → point_alphas.new ≡ point_alphas.old }
    ensures edges { 0 < result → edges.new ≡ edges.old }
    ensures edge_alphas { 0 < result → edge_alphas.new ≡ edge_alphas.old }
    ensures triangles { 0 < result → triangles.new ≡ triangles.old }
    ensures triangle_alphas { 0 < result → triangle_alphas.new ≡ triangle_alphas.old }
    ensures cell_alphas { 0 < result → cell_alphas.new ≡ cell_alphas.old }
    ensures points_behind { result ≡ 0 → drop sizes.new.points points.new ≡ drop sizes.new.points points.old }
    ensures cells_behind { result ≡ 0 → drop sizes.new.cells cells.new ≡ drop sizes.new.cells cells.old }
    ensures neighbours_behind { result ≡ 0 → drop sizes.new.cells neighbours.new ≡ drop sizes.new.cells neighbours.old }
    ensures hull_behind { result ≡ 0 → drop sizes.new.hull hull.new ≡ drop sizes.new.hull hull.old }
    ensures point_alphas_behind { result ≡ 0 → drop face_counts.new.points point_alphas.new
        ≡ drop face_counts.new.points point_alphas.old }
    ensures edges_behind { result ≡ 0 → drop face_counts.new.edges edges.new ≡ drop face_counts.new.edges edges.old }
    ensures edge_alphas_behind { result ≡ 0 → drop face_counts.new.edges edge_alphas.new
        ≡ drop face_counts.new.edges edge_alphas.old }
    ensures triangles_behind { result ≡ 0 → drop face_counts.new.triangles triangles.new
        ≡ drop face_counts.new.triangles triangles.old }
    ensures triangle_alphas_behind { result ≡ 0 → drop face_counts.new.triangles triangle_alphas.new
        ≡ drop face_counts.new.triangles triangle_alphas.old }
    ensures cell_alphas_behind { result ≡ 0 → drop face_counts.new.cells cell_alphas.new
        ≡ drop face_counts.new.cells cell_alphas.old }
{
    match filtered_of(alloc, given) {
        Ok(Filtered { mesh, faces }) => {
            *sizes = mesh_sizes(&mesh);
            *face_counts = face_sizes(&faces);
            if lacks_mesh_room(sizes, points, cells, neighbours, hull)
                || lacks_face_room(
                    face_counts,
                    point_alphas,
                    edges,
                    edge_alphas,
                    triangles,
                    triangle_alphas,
                    cell_alphas,
                )
            {
                return 4;
            }
            put_mesh(mesh, points, cells, neighbours, hull);
            put_faces(
                faces,
                point_alphas,
                edges,
                edge_alphas,
                triangles,
                triangle_alphas,
                cell_alphas,
            );
            0
        }
        Err(Stop::Memory) => 1,
        Err(Stop::Outside) => 2,
        Err(Stop::Flat) => 3,
        Err(Stop::Full) => 6,
    }
}
