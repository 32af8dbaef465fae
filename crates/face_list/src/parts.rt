//! The points, pairs and triples of cells.

ghost use Rattle.std.specs.Prelude.{◌≡◌, ◌<◌, ◌^◌, ◌++◌, length, map, IfOk, OnOk};
ghost use Rattle.point_order.specs.Facets.{points_of};
ghost use Rattle.point_order.specs.Subsets.{subsets};
ghost use Rattle.face_list.specs.Gather.{items_from, AreAscending};

use point_order::{Cell, Pair, Point, Tri};
use std::alloc::{AllocError, Global};

/// The one triple of an Open cell.
pub(crate) fn triples_of_tri(tri: Tri) -> [Tri; 1]
    ensures { result ≡ subsets 3 tri }
{
    let _ = tri.corners();
    [tri]
}

// Puts the number of a cell under each of the cell's parts.
fn put<K: Copy>(items: &mut Vec<(K, u32)>, parts: &[K], number: u32) -> Result<(), AllocError>
    ensures { OnOk result (items.new.items ≡ items.old.items ++ map (λ p. (p, number)) parts.now) }
{
    for part in parts {
        items.push((*part, number))?;
    }
    Ok(())
}

/// The number of each cell under each of its points, which ascend in each cell.
pub(crate) fn point_items(alloc: Global, cells: &[Cell]) -> Result<Vec<(Point, u32)>, AllocError>
    requires { length cells.now < 2 ^ 32 }
    ensures items { IfOk result (λ v. v.items ≡ items_from 0 points_of cells.now) }
    ensures ascending { OnOk result (AreAscending cells.now) }
{
    let mut items = Vec::with_capacity(alloc, cells.len() * 4)?;
    for number in 0..cells.len() {
        put(&mut items, cells[number].points(), number as u32)?;
    }
    Ok(items)
}

/// The number of each cell under each of its pairs.
pub(crate) fn pair_items(alloc: Global, cells: &[Cell]) -> Result<Vec<(Pair, u32)>, AllocError>
    requires { length cells.now < 2 ^ 32 }
    ensures { IfOk result (λ v. v.items ≡ items_from 0 (λ c. subsets 2 (points_of c)) cells.now) }
{
    let mut items = Vec::with_capacity(alloc, cells.len() * 6)?;
    for number in 0..cells.len() {
        match cells[number] {
            Cell::Full(quad) => put(&mut items, &quad.pairs(), number as u32)?,
            Cell::Open(tri) => put(&mut items, &tri.pairs(), number as u32)?,
        }
    }
    Ok(items)
}

/// The number of each cell under each of its triples.
pub(crate) fn triple_items(alloc: Global, cells: &[Cell]) -> Result<Vec<(Tri, u32)>, AllocError>
    requires { length cells.now < 2 ^ 32 }
    ensures { IfOk result (λ v. v.items ≡ items_from 0 (λ c. subsets 3 (points_of c)) cells.now) }
{
    let mut items = Vec::with_capacity(alloc, cells.len() * 4)?;
    for number in 0..cells.len() {
        match cells[number] {
            Cell::Full(quad) => put(&mut items, &quad.triples(), number as u32)?,
            Cell::Open(tri) => put(&mut items, &triples_of_tri(tri), number as u32)?,
        }
    }
    Ok(items)
}
