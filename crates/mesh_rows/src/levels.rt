//! The faces of a complex, and the least alphas of each.

ghost use Rattle.std.specs.Prelude.{◌≡◌, ◌≤◌, ◌<◌, ◌^◌, ◌∷◌, [], ℕ, List, length, map, IfErr, IfOk, IsErrOf};
ghost use Rattle.std.specs.List.{AllZip};
ghost use Rattle.point_order.specs.Sets.{IsAscending};
ghost use Rattle.alpha_complex.specs.Condition.{AreFacesOf};
ghost use Rattle.alpha_complex.specs.Leasts.{AreKnown};
ghost use Rattle.alpha_complex.specs.Told.{TellsFace};
ghost use Rattle.face_list.specs.Faces.{full_cells};
ghost use Rattle.face_list.specs.Tables.{IsTable, table_seen};
ghost use Rattle.hole_laws.specs.Edits.{IsSet};
ghost use Rattle.mesh_rows.specs.Around.{AreAlphasAround};
ghost use Rattle.mesh_rows.specs.Held.{HoldsFaces};
ghost use Rattle.mesh_rows.specs.Meshes.{AreFaceRows, AreFiltered, HasOutside, IsStopCause, IsCloud};
ghost use Rattle.mesh_rows.specs.declared.stop.Stop.TheVariants.{Outside};

use crate::around::alphas_around;
use crate::cloud::{Cloud, cloud_of};
use crate::numbers::{Face, rows_of_faces};
use crate::rows::{EdgeRow, Place, TriangleRow};
use crate::stop::Stop;
use alpha_complex::{Alphas, FaceAlphas, alphas_alone};
use face_list::{Faces, Table, few_faces};
use point_order::{Cell, Pair, Point, Tri};
use std::alloc::{AllocError, Global};

/// The rows of the faces of a complex, and the least alphas of each.
#[derive(Drop)]
pub struct Levels {
    pub point_alphas: Vec<FaceAlphas>,
    pub edges: Vec<EdgeRow>,
    pub edge_alphas: Vec<FaceAlphas>,
    pub triangles: Vec<TriangleRow>,
    pub triangle_alphas: Vec<FaceAlphas>,
    pub cell_alphas: Vec<u64>,
}

// One for a Full cell.
fn full_one(cell: &Cell) -> usize
    ensures count { result ≡ length (full_cells (cell.now ∷ [])) }
    ensures most { result ≤ 1 }
{
    match cell {
        Cell::Full(_) => 1,
        Cell::Open(_) => 0,
    }
}

// How many Full cells there are.
pub(crate) fn full_count(cells: &[Cell]) -> usize
    ensures { result ≡ length (full_cells cells.now) }
{
    let mut count = 0;
    for cell in cells {
        count += full_one(cell);
    }
    count
}

// The numbers of the points.
fn alphas_of_points(alloc: Global, known: &Alphas) -> Result<Vec<FaceAlphas>, AllocError>
    requires { AreKnown known.now }
    ensures { IfOk result (λ v. (s : List ℕ) → AreFacesOf s known.now.faces.now →
        AllZip (λ p a. TellsFace s (p ∷ []) a) s v.items) }
{
    let count = known.faces.points().len();
    let mut alphas = Vec::with_capacity(alloc, count)?;
    for index in 0..count {
        alphas.push(known.point(index))?;
    }
    Ok(alphas)
}

// The numbers of pairs, of triples and of cells, without the faces.
fn without_faces(known: Alphas) -> (Vec<u64>, Vec<u64>, Vec<u64>)
    ensures pairs { result.0 ≡ known.entry.pairs }
    ensures triples { result.1 ≡ known.entry.triples }
    ensures cells { result.2 ≡ known.entry.cells }
{
    let Alphas {
        pairs,
        triples,
        cells,
        ..
    } = known;
    (pairs, triples, cells)
}

// The tables of the pairs and of the triples, without that of the points.
fn without_points(faces: Faces) -> (Table<Pair>, Table<Tri>)
    ensures pairs { table_seen faces.entry.cells result.0 ≡ faces.entry.pairs }
    ensures triples { table_seen faces.entry.cells result.1 ≡ faces.entry.triples }
    ensures pair_table { IsTable (length faces.entry.cells) result.0 }
    ensures triple_table { IsTable (length faces.entry.cells) result.1 }
{
    let (_, pairs, triples) = faces.apart();
    (pairs, triples)
}

// What the rows and numbers of faces are made of, when those of the points are made.
#[derive(Drop)]
pub(crate) struct Held {
    point_alphas: Vec<FaceAlphas>,
    pairs: Table<Pair>,
    triples: Table<Tri>,
    of_pairs: Vec<u64>,
    of_triples: Vec<u64>,
    of_cells: Vec<u64>,
    full: usize,
}

// Of a set and its cells, which are not looked at again.
pub(crate) fn held_of(alloc: Global, set: &[Point], all: &[Cell]) -> Result<Held, AllocError>
    requires { IsCloud set.now all.now }
    ensures { IfOk result (HoldsFaces set.now) }
{
    let faces = few_faces(alloc, all)?;
    let known = alphas_alone(alloc, &faces)?;
    let point_alphas = alphas_of_points(alloc, &known)?;
    let (of_pairs, of_triples, of_cells) = without_faces(known);
    let (pairs, triples) = without_points(faces);
    Ok(Held {
        point_alphas,
        pairs,
        triples,
        of_pairs,
        of_triples,
        of_cells,
        full: full_count(all),
    })
}

// The keys of a table, of which the rest is let go.
fn keys_of<K: Copy>(table: Table<K>) -> Vec<K>
    ensures { result ≡ table.keys }
{
    let Table { keys, .. } = table;
    keys
}

// The rows of the faces of a table and their numbers. What these were made of is let go on the way.
fn levels_of_faces<F: Face>(
    alloc: Global,
    set: &[Point],
    table: Table<F>,
    admitted: Vec<u64>,
    cells: &[u64],
) -> Result<(Vec<F::Row>, Vec<FaceAlphas>), AllocError>
    requires few { length set.now < 2 ^ 32 }
    requires ascending { IsAscending set.now }
    requires table { IsTable (length cells.now) table }
    requires admitted { length admitted.items ≡ length table.keys.items }
    ensures rows { IfOk result (λ made. made.0.items ≡ map (F.row_of set.now) table.keys.items) }
    ensures alphas { IfOk result (λ made. AreAlphasAround cells.now table admitted.items made.1.items) }
{
    let alphas = alphas_around(alloc, &table, admitted, cells)?;
    let rows = rows_of_faces(alloc, set, &keys_of(table))?;
    Ok((rows, alphas))
}

// The rows and numbers of the faces of a set. Each kind of faces is let go before the next: so least is held.
pub(crate) fn face_rows(alloc: Global, set: &[Point], held: Held) -> Result<Levels, AllocError>
    requires few { length set.now < 2 ^ 32 }
    requires set { IsSet set.now }
    requires held { HoldsFaces set.now held }
    ensures rows { IfOk result (λ l. AreFaceRows set.now l.point_alphas.items l.edges.items l.edge_alphas.items
        l.triangles.items l.triangle_alphas.items l.cell_alphas.items) }
    ensures edge_count { IfOk result (λ l. length l.edge_alphas.items ≡ length l.edges.items) }
    ensures triangle_count { IfOk result (λ l. length l.triangle_alphas.items ≡ length l.triangles.items) }
{
    let Held {
        point_alphas,
        pairs,
        triples,
        of_pairs,
        of_triples,
        of_cells,
        full,
    } = held;
    let (edges, edge_alphas) = levels_of_faces(alloc, set, pairs, of_pairs, &of_cells)?;
    let (triangles, triangle_alphas) = levels_of_faces(alloc, set, triples, of_triples, &of_cells)?;
    let mut cell_alphas = of_cells;
    cell_alphas.truncate(full);
    Ok(Levels {
        point_alphas,
        edges,
        edge_alphas,
        triangles,
        triangle_alphas,
        cell_alphas,
    })
}

// The points of a cloud, of which the cells are let go.
fn points_of(cloud: Cloud) -> Vec<Point>
    ensures { result ≡ cloud.points }
{
    let Cloud { points, .. } = cloud;
    points
}

/// The faces of the complex of the points at the given places.
///
/// # Errors
/// Each `Stop`.
pub fn levels_of(alloc: Global, given: &[Place]) -> Result<Levels, Stop>
    ensures levels { IfOk result (λ l. AreFiltered given.now l.point_alphas.items l.edges.items l.edge_alphas.items
        l.triangles.items l.triangle_alphas.items l.cell_alphas.items) }
    ensures edge_count { IfOk result (λ l. length l.edge_alphas.items ≡ length l.edges.items) }
    ensures triangle_count { IfOk result (λ l. length l.triangle_alphas.items ≡ length l.triangles.items) }
    ensures refused { IfErr result (λ stop. IsStopCause given.now stop) }
    ensures first { HasOutside given.now → IsErrOf result Outside }
{
    let cloud = cloud_of(alloc, given)?;
    let held = held_of(alloc, &cloud.points, &cloud.cells)?;
    let levels = face_rows(alloc, &points_of(cloud), held)?;
    Ok(levels)
}
