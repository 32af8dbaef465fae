//! Rows of numbers of points.

ghost use Rattle.std.specs.Prelude.{◌≡◌, ◌<◌, ◌^◌, ◌++◌, ◌∷◌, [], ℕ, List, length, map, IfOk, OnOk};
ghost use Rattle.face_list.specs.Faces.{full_cells};
ghost use Rattle.point_order.specs.Sets.{IsAscending};
ghost use Rattle.mesh_rows.specs.Rows.{cell_row, edge_row, rank_of, open_cells, point_place, triangle_row};

use crate::levels::full_count;
use crate::ranks::{Ranks, ranks_of};
use crate::rows::{CellRow, EdgeRow, Place, TriangleRow};
use point_order::{Cell, Pair, Point, Quad, Tri};
use std::alloc::{AllocError, Global};

/// Where a point is.
pub fn place_at(p: Point) -> Place
    ensures { result ≡ point_place p }
{
    Place {
        x: p.x(),
        y: p.y(),
        z: p.z(),
    }
}

/// Where points are.
pub fn places(alloc: Global, points: &[Point]) -> Result<Vec<Place>, AllocError>
    ensures { IfOk result (λ rows. rows.items ≡ map point_place points.now) }
{
    points.iter().map(|p| place_at(*p)).collect(alloc)
}

// The number of a point of an ascending list. The hint is looked at before it is believed.
fn number(points: &[Point], ranks: &Ranks, point: Point) -> u32
    requires few { length points.now < 2 ^ 32 }
    requires ascending { IsAscending points.now }
    ensures { result ≡ rank_of points.now point }
{
    let key = point.key();
    let likely = ranks.place(points, key);
    if likely < points.len() && points[likely].key() == key {
        return likely as u32;
    }
    points.partition_point(|q| q.key() < key) as u32
}

/// A kind of faces, each told by the numbers of its points.
pub trait Face: Copy {
    /// These numbers.
    type Row: Copy;

    /// Those of a face, in a list of points that ascends.
    ghost row_of: { List ℕ → Self → Self.Row };

    /// The row of a face.
    fn row(&self, points: &[Point], ranks: &Ranks) -> Self::Row
        requires few { length points.now < 2 ^ 32 }
        requires ascending { IsAscending points.now }
        ensures { result ≡ row_of points.now self.now };
}

impl Face for Pair {
    type Row = EdgeRow;

    ghost row_of = { edge_row };

    fn row(&self, points: &[Point], ranks: &Ranks) -> EdgeRow {
        let (a, b) = self.corners();
        EdgeRow {
            a: number(points, ranks, a),
            b: number(points, ranks, b),
        }
    }
}

impl Face for Tri {
    type Row = TriangleRow;

    ghost row_of = { triangle_row };

    fn row(&self, points: &[Point], ranks: &Ranks) -> TriangleRow {
        let (a, b, c) = self.corners();
        TriangleRow {
            a: number(points, ranks, a),
            b: number(points, ranks, b),
            c: number(points, ranks, c),
        }
    }
}

/// The row of a tetrahedron.
pub fn tetrahedron(points: &[Point], ranks: &Ranks, quad: &Quad) -> CellRow
    requires few { length points.now < 2 ^ 32 }
    requires ascending { IsAscending points.now }
    ensures { result ≡ cell_row points.now quad.now }
{
    let (a, b, c, d) = quad.corners();
    CellRow {
        a: number(points, ranks, a),
        b: number(points, ranks, b),
        c: number(points, ranks, c),
        d: number(points, ranks, d),
    }
}

/// The rows of faces.
pub fn rows_of_faces<F: Face>(
    alloc: Global,
    points: &[Point],
    faces: &[F],
) -> Result<Vec<F::Row>, AllocError>
    requires few { length points.now < 2 ^ 32 }
    requires ascending { IsAscending points.now }
    ensures { IfOk result (λ rows. rows.items ≡ map (F.row_of points.now) faces.now) }
{
    let ranks = ranks_of(alloc, points)?;
    let mut rows = Vec::with_capacity(alloc, faces.len())?;
    for face in faces {
        rows.push(face.row(points, &ranks))?;
    }
    Ok(rows)
}

// Puts the row of a cell, where it is Full.
fn put_full(
    rows: &mut Vec<CellRow>,
    points: &[Point],
    ranks: &Ranks,
    cell: &Cell,
) -> Result<(), AllocError>
    requires few { length points.now < 2 ^ 32 }
    requires ascending { IsAscending points.now }
    ensures { OnOk result (rows.new.items
        ≡ rows.old.items ++ map (cell_row points.now) (full_cells (cell.now ∷ []))) }
{
    if let Cell::Full(quad) = cell {
        rows.push(tetrahedron(points, ranks, quad))?;
    }
    Ok(())
}

/// The rows of the Full cells.
pub fn cells(alloc: Global, points: &[Point], all: &[Cell]) -> Result<Vec<CellRow>, AllocError>
    requires few { length points.now < 2 ^ 32 }
    requires ascending { IsAscending points.now }
    ensures { IfOk result (λ rows. rows.items ≡ map (cell_row points.now) (full_cells all.now)) }
{
    let ranks = ranks_of(alloc, points)?;
    let mut rows = Vec::with_capacity(alloc, full_count(all))?;
    for cell in all {
        put_full(&mut rows, points, &ranks, cell)?;
    }
    Ok(rows)
}

// Puts the row of a cell, where it is Open.
fn put_open(
    rows: &mut Vec<TriangleRow>,
    points: &[Point],
    ranks: &Ranks,
    cell: &Cell,
) -> Result<(), AllocError>
    requires few { length points.now < 2 ^ 32 }
    requires ascending { IsAscending points.now }
    ensures { OnOk result (rows.new.items
        ≡ rows.old.items ++ map (triangle_row points.now) (open_cells (cell.now ∷ []))) }
{
    if let Cell::Open(tri) = cell {
        rows.push(tri.row(points, ranks))?;
    }
    Ok(())
}

/// The rows of the Open cells: the triangles of the hull.
pub fn hull(alloc: Global, points: &[Point], all: &[Cell]) -> Result<Vec<TriangleRow>, AllocError>
    requires few { length points.now < 2 ^ 32 }
    requires ascending { IsAscending points.now }
    ensures { IfOk result (λ rows. rows.items ≡ map (triangle_row points.now) (open_cells all.now)) }
{
    let ranks = ranks_of(alloc, points)?;
    let mut rows = Vec::new(alloc);
    for cell in all {
        put_open(&mut rows, points, &ranks, cell)?;
    }
    Ok(rows)
}
