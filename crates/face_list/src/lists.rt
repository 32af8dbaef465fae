//! The tables of faces of each kind.

ghost use Rattle.std.specs.Prelude.{◌≡◌, ◌<◌, ◌^◌, length, IfOk, OnOk};
ghost use Rattle.std.specs.Thread.{IsSync};
ghost use Rattle.face_list.specs.Faces.{points_in, parts_in, points_with_cells, with_cells_around};
ghost use Rattle.face_list.specs.Gather.{IsPointTable};
ghost use Rattle.face_list.specs.Tables.{IsTable, table_seen};

use crate::beside::table_beside;
use crate::gather::gather;
use crate::parts::{pair_items, point_items, triple_items};
use crate::table::Table;
use point_order::{Cell, Pair, Point, Tri};
use std::alloc::{AllocError, Global};
use std::thread::{Threads, available_parallelism, join};

/// The points of Full cells, with the cells that have them. The points of each cell ascend.
pub(crate) fn point_table<R: Threads + Sync>(
    rt: &R,
    alloc: Global,
    cells: &[Cell],
) -> Result<Table<Point>, AllocError>
    requires { length cells.now < 2 ^ 32 }
    ensures faces { IfOk result (λ t. table_seen cells.now t ≡ points_with_cells (points_in cells.now) cells.now) }
    ensures table { IfOk result (IsPointTable cells.now) }
{
    let items = point_items(alloc, cells)?;
    let table = gather(rt, alloc, cells, items)?;
    Ok(table)
}

// The pairs inside Full cells, with the cells that have both points, by so many threads.
fn pair_table<R: Threads + Sync>(
    rt: &R,
    alloc: Global,
    cells: &[Cell],
    points: &Table<Point>,
    threads: usize,
) -> Result<Table<Pair>, AllocError>
    requires { IsPointTable cells.now points.now }
    ensures faces { IfOk result (λ t. table_seen cells.now t ≡ with_cells_around (parts_in 2 cells.now) cells.now) }
    ensures table { IfOk result (λ t. IsTable (length cells.now) t) }
{
    match table_beside(rt, alloc, cells, points, threads)? {
        Some(table) => Ok(table),
        None => {
            let items = pair_items(alloc, cells)?;
            gather(rt, alloc, cells, items)
        }
    }
}

// The triples inside Full cells, with the cells that have all three points, by so many threads.
fn triple_table<R: Threads + Sync>(
    rt: &R,
    alloc: Global,
    cells: &[Cell],
    points: &Table<Point>,
    threads: usize,
) -> Result<Table<Tri>, AllocError>
    requires { IsPointTable cells.now points.now }
    ensures faces { IfOk result (λ t. table_seen cells.now t ≡ with_cells_around (parts_in 3 cells.now) cells.now) }
    ensures table { IfOk result (λ t. IsTable (length cells.now) t) }
{
    match table_beside(rt, alloc, cells, points, threads)? {
        Some(table) => Ok(table),
        None => {
            let items = triple_items(alloc, cells)?;
            gather(rt, alloc, cells, items)
        }
    }
}

// How many threads gather the faces of a kind: as many as there are processors.
fn thread_count<R: Threads>(rt: &R) -> usize {
    match available_parallelism(rt) {
        Ok(count) => count.get(),
        Err(_) => 1,
    }
}

/// The pairs and the triples inside Full cells, with their cells, both kinds at once, and each by as many threads as
/// there are processors.
pub(crate) fn pair_and_triple_tables<R: Threads + Sync>(
    rt: &R,
    alloc: Global,
    cells: &[Cell],
    points: &Table<Point>,
) -> Result<(Table<Pair>, Table<Tri>), AllocError>
    requires { IsPointTable cells.now points.now }
    ensures pairs { IfOk result (λ both. table_seen cells.now both.0
        ≡ with_cells_around (parts_in 2 cells.now) cells.now) }
    ensures triples { IfOk result (λ both. table_seen cells.now both.1
        ≡ with_cells_around (parts_in 3 cells.now) cells.now) }
    ensures pair_table { IfOk result (λ both. IsTable (length cells.now) both.0) }
    ensures triple_table { IfOk result (λ both. IsTable (length cells.now) both.1) }
{
    let threads = thread_count(rt);
    let (pairs, triples) = join(
        rt,
        || -> Result<Table<Pair>, AllocError>
            requires sync { IsSync R.row }
            requires points { IsPointTable cells.now points.now }
            ensures faces { IfOk result (λ t. table_seen cells.entry.now t
                ≡ with_cells_around (parts_in 2 cells.entry.now) cells.entry.now) }
            ensures table { IfOk result (λ t. IsTable (length cells.entry.now) t) }
        { pair_table(rt, alloc, cells, points, threads) },
        || -> Result<Table<Tri>, AllocError>
            requires sync { IsSync R.row }
            requires points { IsPointTable cells.now points.now }
            ensures faces { IfOk result (λ t. table_seen cells.entry.now t
                ≡ with_cells_around (parts_in 3 cells.entry.now) cells.entry.now) }
            ensures table { IfOk result (λ t. IsTable (length cells.entry.now) t) }
        { triple_table(rt, alloc, cells, points, threads) },
    );
    Ok((pairs?, triples?))
}
