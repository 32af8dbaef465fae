//! What lies across the facets of Full cells.

ghost use Rattle.std.specs.Prelude.{◌≡◌, ◌<◌, ◌^◌, ◌↔◌, length, IfOk, IsTrue};
ghost use Rattle.point_order.specs.declared.cell.Cell.TheVariants.{Full};
ghost use Rattle.point_order.specs.declared.cell.Facet.TheVariants.{Three};
ghost use Rattle.face_list.specs.Faces.{full_cells};
ghost use Rattle.face_list.specs.Tables.{cell_at};
ghost use Rattle.mesh_rows.specs.Across.{AreAcross, AreNeighbours, IsToldAcross, full_at};
ghost use Rattle.mesh_rows.specs.Linked.{AreOfComplex, AreSides, HasAnotherCell, IsOther, told};

use crate::hints::{Hints, hints_of};
use crate::rows::CellRow;
use point_order::{Cell, Facet, Quad, Tri};
use std::alloc::{AllocError, Global};

// Whether the cell of the number m is another than that of n, and has the facet.
fn is_other(cells: &[Cell], n: usize, tri: &Tri, m: usize) -> bool
    ensures { IsTrue result ↔ IsOther cells.now n (Three tri.now) m }
{
    m < cells.len() && m != n && cells[m].is_on(&Facet::Three(*tri))
}

// The number of the other cell that has the facet. It is likely to be the hint.
fn other(cells: &[Cell], n: usize, tri: &Tri, hint: usize) -> usize
    requires { HasAnotherCell cells.now n (Three tri.now) }
    ensures { IsOther cells.now n (Three tri.now) result }
{
    if is_other(cells, n, tri, hint) {
        return hint;
    }
    for m in 0..cells.len() {
        if is_other(cells, n, tri, m) {
            return m;
        }
    }
    unreachable!()
}

// What is told of the cell of a number.
fn told_of(cells: &[Cell], m: usize) -> u32
    requires listed { m < length cells.now }
    requires few { length cells.now < 2 ^ 32 }
    ensures { result ≡ told (cell_at cells.now m) m }
{
    match cells[m] {
        Cell::Full(_) => m as u32,
        Cell::Open(_) => u32::MAX,
    }
}

// What is told of the cell across a facet.
fn across(cells: &[Cell], n: usize, tri: &Tri, hint: usize) -> u32
    requires few { length cells.now < 2 ^ 32 }
    requires cells { AreOfComplex cells.now }
    requires other { HasAnotherCell cells.now n (Three tri.now) }
    ensures { IsToldAcross cells.now n tri.now result }
{
    told_of(cells, other(cells, n, tri, hint))
}

// The facets of a Full cell, of which the first lacks its first point.
fn sides(quad: &Quad) -> (Tri, Tri, Tri, Tri)
    ensures { AreSides quad.now result.0 result.1 result.2 result.3 }
{
    let _ = quad.corners();
    let triples = quad.triples();
    (triples[3], triples[2], triples[1], triples[0])
}

// What is told of the four cells across the facets of a Full cell.
fn row(cells: &[Cell], n: usize, quad: &Quad, hints: &Hints) -> CellRow
    requires few { length cells.now < 2 ^ 32 }
    requires cells { AreOfComplex cells.now }
    requires listed { n < length cells.now }
    requires cell { cell_at cells.now n ≡ Full quad.now }
    ensures { AreAcross cells.now n quad.now result }
{
    let (a, b, c, d) = sides(quad);
    CellRow {
        a: across(cells, n, &a, hints.at(n, 0)),
        b: across(cells, n, &b, hints.at(n, 1)),
        c: across(cells, n, &c, hints.at(n, 2)),
        d: across(cells, n, &d, hints.at(n, 3)),
    }
}

// That of the Full cell of a number.
fn row_at(cells: &[Cell], n: usize, hints: &Hints) -> CellRow
    requires few { length cells.now < 2 ^ 32 }
    requires cells { AreOfComplex cells.now }
    requires listed { n < length cells.now }
    requires cell { cell_at cells.now n ≡ Full (full_at cells.now n) }
    ensures { AreAcross cells.now n (full_at cells.now n) result }
{
    match &cells[n] {
        Cell::Full(quad) => row(cells, n, quad, hints),
        Cell::Open(_) => unreachable!(),
    }
}

/// A row for each Full cell of a complex, of which there are `count`: what lies across its facets.
///
/// # Errors
/// Want of memory.
pub fn neighbours(alloc: Global, cells: &[Cell], count: usize) -> Result<Vec<CellRow>, AllocError>
    requires few { length cells.now < 2 ^ 32 }
    requires cells { AreOfComplex cells.now }
    requires count { count ≡ length (full_cells cells.now) }
    ensures { IfOk result (λ rows. AreNeighbours cells.now rows.items) }
{
    let hints = hints_of(alloc, cells)?;
    let mut rows = Vec::with_capacity(alloc, count)?;
    for n in 0..count {
        rows.push(row_at(cells, n, &hints))?;
    }
    Ok(rows)
}
