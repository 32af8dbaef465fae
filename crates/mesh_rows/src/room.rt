//! Rooms of the caller's, and whether they are enough.

ghost use Rattle.std.specs.Prelude.{◌≤◌, ◌↔◌, IsTrue, length};
ghost use Rattle.mesh_rows.specs.Rooms.{AreFaceCounts, AreMeshCounts, AreRowsPut, LacksFaceRoom, LacksMeshRoom};

use crate::levels::Levels;
use crate::mesh::Made;
use crate::rows::{CellRow, EdgeRow, FaceSizes, MeshSizes, Place, TriangleRow};
use alpha_complex::FaceAlphas;

/// Puts rows to the front of a room, and leaves what is behind them.
pub fn put<T: Copy>(room: &mut [T], rows: &[T])
    requires { length rows.now ≤ length room.old }
    ensures { AreRowsPut rows.now room.old room.new }
{
    room[..rows.len()].copy_from_slice(rows);
}

// The same, and lets the rows go.
fn put_away<T: Copy>(room: &mut [T], rows: Vec<T>)
    requires { length rows.items ≤ length room.old }
    ensures { AreRowsPut rows.items room.old room.new }
{
    put(room, &rows);
}

/// How many rows a mesh has.
pub fn mesh_sizes(made: &Made) -> MeshSizes
    ensures { AreMeshCounts made.now result }
{
    MeshSizes {
        points: made.points.len() as u64,
        cells: made.cells.len() as u64,
        hull: made.hull.len() as u64,
    }
}

/// Whether some room is less than a mesh of these sizes takes.
pub fn lacks_mesh_room(
    sizes: &MeshSizes,
    points: &[Place],
    cells: &[CellRow],
    neighbours: &[CellRow],
    hull: &[TriangleRow],
) -> bool
    ensures { IsTrue result ↔ LacksMeshRoom sizes.now (length points.now) (length cells.now) (length neighbours.now)
        (length hull.now) }
{
    (points.len() as u64) < sizes.points
        || (cells.len() as u64) < sizes.cells
        || (neighbours.len() as u64) < sizes.cells
        || (hull.len() as u64) < sizes.hull
}

/// Puts a mesh to the fronts of rooms, and lets each list go once it is put. What is behind its rows stays as it was.
pub fn put_mesh(
    made: Made,
    points: &mut [Place],
    cells: &mut [CellRow],
    neighbours: &mut [CellRow],
    hull: &mut [TriangleRow],
)
    requires points { length made.points.items ≤ length points.old }
    requires cells { length made.cells.items ≤ length cells.old }
    requires neighbours { length made.neighbours.items ≤ length neighbours.old }
    requires hull { length made.hull.items ≤ length hull.old }
    ensures points { AreRowsPut made.points.items points.old points.new }
    ensures cells { AreRowsPut made.cells.items cells.old cells.new }
    ensures neighbours { AreRowsPut made.neighbours.items neighbours.old neighbours.new }
    ensures hull { AreRowsPut made.hull.items hull.old hull.new }
{
    put_away(points, made.points);
    put_away(cells, made.cells);
    put_away(neighbours, made.neighbours);
    put_away(hull, made.hull);
}

/// How many rows faces have.
pub fn face_sizes(levels: &Levels) -> FaceSizes
    ensures { AreFaceCounts levels.now result }
{
    FaceSizes {
        points: levels.point_alphas.len() as u64,
        edges: levels.edges.len() as u64,
        triangles: levels.triangles.len() as u64,
        cells: levels.cell_alphas.len() as u64,
    }
}

/// Whether some room is less than faces of these sizes take.
pub fn lacks_face_room(
    sizes: &FaceSizes,
    point_alphas: &[FaceAlphas],
    edges: &[EdgeRow],
    edge_alphas: &[FaceAlphas],
    triangles: &[TriangleRow],
    triangle_alphas: &[FaceAlphas],
    cell_alphas: &[u64],
) -> bool
    ensures { IsTrue result ↔ LacksFaceRoom sizes.now (length point_alphas.now) (length edges.now)
        (length edge_alphas.now) (length triangles.now) (length triangle_alphas.now) (length cell_alphas.now) }
{
    (point_alphas.len() as u64) < sizes.points
        || (edges.len() as u64) < sizes.edges
        || (edge_alphas.len() as u64) < sizes.edges
        || (triangles.len() as u64) < sizes.triangles
        || (triangle_alphas.len() as u64) < sizes.triangles
        || (cell_alphas.len() as u64) < sizes.cells
}

/// Puts faces to the fronts of rooms, and lets each list go once it is put. What is behind their rows stays as it was.
pub fn put_faces(
    levels: Levels,
    point_alphas: &mut [FaceAlphas],
    edges: &mut [EdgeRow],
    edge_alphas: &mut [FaceAlphas],
    triangles: &mut [TriangleRow],
    triangle_alphas: &mut [FaceAlphas],
    cell_alphas: &mut [u64],
)
    requires point_alphas { length levels.point_alphas.items ≤ length point_alphas.old }
    requires edges { length levels.edges.items ≤ length edges.old }
    requires edge_alphas { length levels.edge_alphas.items ≤ length edge_alphas.old }
    requires triangles { length levels.triangles.items ≤ length triangles.old }
    requires triangle_alphas { length levels.triangle_alphas.items ≤ length triangle_alphas.old }
    requires cell_alphas { length levels.cell_alphas.items ≤ length cell_alphas.old }
    ensures point_alphas { AreRowsPut levels.point_alphas.items point_alphas.old point_alphas.new }
    ensures edges { AreRowsPut levels.edges.items edges.old edges.new }
    ensures edge_alphas { AreRowsPut levels.edge_alphas.items edge_alphas.old edge_alphas.new }
    ensures triangles { AreRowsPut levels.triangles.items triangles.old triangles.new }
    ensures triangle_alphas { AreRowsPut levels.triangle_alphas.items triangle_alphas.old triangle_alphas.new }
    ensures cell_alphas { AreRowsPut levels.cell_alphas.items cell_alphas.old cell_alphas.new }
{
    put_away(point_alphas, levels.point_alphas);
    put_away(edges, levels.edges);
    put_away(edge_alphas, levels.edge_alphas);
    put_away(triangles, levels.triangles);
    put_away(triangle_alphas, levels.triangle_alphas);
    put_away(cell_alphas, levels.cell_alphas);
}
