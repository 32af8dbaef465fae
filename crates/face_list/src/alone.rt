//! The faces of cells, gathered by one thread.

ghost use Rattle.std.specs.Prelude.{◌≡◌, ◌<◌, ◌^◌, ◌↔◌, ℕ, length, IfOk, OnOk};
ghost use Rattle.std.proofs.lemmas.Map.Lookups.{CmpEqualImpliesEq};
ghost use Rattle.point_order.specs.Sets.{IsIn};
ghost use Rattle.face_list.specs.Faces.{parts_in, points_in, points_with_cells, with_cells_around};
ghost use Rattle.face_list.specs.Gather.{AreItems, GathersItems, IsPointTable};
ghost use Rattle.face_list.specs.Tables.{IsTable, table_seen};

use crate::around::table_around;
use crate::counts::number_of;
use crate::face::Faces;
use crate::gather::{keys_of_full, sorted, with_numbers};
use crate::parts::{pair_items, point_items, triple_items};
use crate::table::Table;
use point_order::{Cell, Pair, Point, Tri};
use std::alloc::{AllocError, Global};

// Each key of a Full cell, in order, with the numbers of the cells of its items, in order. It is refused as want of
// memory where there are more numbers than 32 bits count.
fn gather<K: Ord + Copy>(
    alloc: Global,
    cells: &[Cell],
    items: Vec<(K, u32)>,
) -> Result<Table<K>, AllocError>
    requires exact { CmpEqualImpliesEq K.cmp }
    requires numbers { AreItems (length cells.now) items.items }
    ensures gathers { IfOk result (λ t. GathersItems K.cmp cells.now items.items t) }
    ensures table { IfOk result (λ t. IsTable (length cells.now) t) }
{
    let items = sorted(items);
    let keys = keys_of_full(alloc, cells, &items)?;
    let table = with_numbers(alloc, keys, &items)?;
    Ok(table)
}

// The points of Full cells, with the cells that have them. The points of each cell ascend.
fn point_table(alloc: Global, cells: &[Cell]) -> Result<Table<Point>, AllocError>
    requires { length cells.now < 2 ^ 32 }
    ensures faces { IfOk result (λ t. table_seen cells.now t ≡ points_with_cells (points_in cells.now) cells.now) }
    ensures table { IfOk result (IsPointTable cells.now) }
{
    let items = point_items(alloc, cells)?;
    let table = gather(alloc, cells, items)?;
    Ok(table)
}

// The pairs inside Full cells, with the cells that have both points.
fn pair_table(
    alloc: Global,
    cells: &[Cell],
    points: &Table<Point>,
) -> Result<Table<Pair>, AllocError>
    requires { IsPointTable cells.now points.now }
    ensures faces { IfOk result (λ t. table_seen cells.now t ≡ with_cells_around (parts_in 2 cells.now) cells.now) }
    ensures table { IfOk result (λ t. IsTable (length cells.now) t) }
{
    match table_around(alloc, cells, points)? {
        Some(table) => Ok(table),
        None => {
            let items = pair_items(alloc, cells)?;
            gather(alloc, cells, items)
        }
    }
}

// The triples inside Full cells, with the cells that have all three points.
fn triple_table(
    alloc: Global,
    cells: &[Cell],
    points: &Table<Point>,
) -> Result<Table<Tri>, AllocError>
    requires { IsPointTable cells.now points.now }
    ensures faces { IfOk result (λ t. table_seen cells.now t ≡ with_cells_around (parts_in 3 cells.now) cells.now) }
    ensures table { IfOk result (λ t. IsTable (length cells.now) t) }
{
    match table_around(alloc, cells, points)? {
        Some(table) => Ok(table),
        None => {
            let items = triple_items(alloc, cells)?;
            gather(alloc, cells, items)
        }
    }
}

/// The faces that `faces` gives of the cells, gathered by the thread that calls: for few cells.
///
/// # Errors
/// Want of memory. Where 32 bits do not count the cells around all faces, there is none.
pub fn few_faces(alloc: Global, cells: &[Cell]) -> Result<Faces<'_>, AllocError>
    ensures points { IfOk result (λ f. f.points ≡ points_with_cells (points_in cells.now) cells.now) }
    ensures pairs { IfOk result (λ f. f.pairs ≡ with_cells_around (parts_in 2 cells.now) cells.now) }
    ensures triples { IfOk result (λ f. f.triples ≡ with_cells_around (parts_in 3 cells.now) cells.now) }
    ensures cells { IfOk result (λ f. f.cells ≡ cells.now) }
{
    number_of(cells.len())?;
    let points = point_table(alloc, cells)?;
    let pairs = pair_table(alloc, cells, &points)?;
    let triples = triple_table(alloc, cells, &points)?;
    Ok(Faces {
        cells,
        points,
        pairs,
        triples,
    })
}
