//! The complex of a set of points, by trial of all quadruples and triples.

ghost use Rattle.std.specs.Prelude.{◌≡◌, ◌<◌, ◌+◌, [], ◌∷◌, ◌++◌, length, slice_index, drop, IfOk, OnOk};
ghost use Rattle.point_order.specs.Sets.{IsAscending};
ghost use Rattle.point_order.specs.Complex.{complex};
ghost use Rattle.complex_trial.specs.Trial.{full_from, open_from};

use crate::tests_of_cells::{is_full_cell, is_open_cell};
use point_order::{Cell, Point};
use std::alloc::{AllocError, Global};

/// The cells of the complex of the points, which are ascending: Full cells first, each kind in order.
pub fn complex_by_trial(alloc: Global, points: &[Point]) -> Result<Vec<Cell>, AllocError>
    requires { IsAscending points.now }
    ensures { IfOk result (λ cells. cells.items ≡ complex points.now) }
{
    let mut cells = Vec::new(alloc);
    push_full(&mut cells, points)?;
    push_open(&mut cells, points)?;
    Ok(cells)
}

// Puts all Full cells behind the cells.
fn push_full(cells: &mut Vec<Cell>, points: &[Point]) -> Result<(), AllocError>
    requires { IsAscending points.now }
    ensures { OnOk result (cells.new.items ≡ cells.old.items ++ full_from points.now [] 4 points.now) }
{
    for i in 0..points.len() {
        push_full_from_one(cells, points, i)?;
    }
    Ok(())
}

// Puts the Full cells that begin with the point at i behind the cells.
fn push_full_from_one(cells: &mut Vec<Cell>, points: &[Point], i: usize) -> Result<(), AllocError>
    requires order { IsAscending points.now }
    requires place { i < length points.now }
    ensures { OnOk result (cells.new.items ≡ cells.old.items
        ++ full_from points.now (slice_index points.now i ∷ []) 3 (drop (i + 1) points.now)) }
{
    for j in i + 1..points.len() {
        push_full_from_two(cells, points, i, j)?;
    }
    Ok(())
}

// Puts the Full cells that begin with the points at i and j behind the cells.
fn push_full_from_two(
    cells: &mut Vec<Cell>,
    points: &[Point],
    i: usize,
    j: usize,
) -> Result<(), AllocError>
    requires order { IsAscending points.now }
    requires first { i < j }
    requires place { j < length points.now }
    ensures { OnOk result (cells.new.items ≡ cells.old.items
        ++ full_from points.now (slice_index points.now i ∷ slice_index points.now j ∷ []) 2
        (drop (j + 1) points.now)) }
{
    for k in j + 1..points.len() {
        push_full_from_three(cells, points, i, j, k)?;
    }
    Ok(())
}

// Puts the Full cells that begin with the points at i, j and k behind the cells.
fn push_full_from_three(
    cells: &mut Vec<Cell>,
    points: &[Point],
    i: usize,
    j: usize,
    k: usize,
) -> Result<(), AllocError>
    requires order { IsAscending points.now }
    requires first { i < j }
    requires second { j < k }
    requires place { k < length points.now }
    ensures { OnOk result (cells.new.items ≡ cells.old.items
        ++ full_from points.now (slice_index points.now i ∷ slice_index points.now j ∷ slice_index points.now k ∷ []) 1
        (drop (k + 1) points.now)) }
{
    let (a, b, c) = (points[i], points[j], points[k]);
    for l in k + 1..points.len() {
        push_if_full(cells, points, a, b, c, points[l])?;
    }
    Ok(())
}

// Puts four points behind the cells, where they are a Full cell.
fn push_if_full(
    cells: &mut Vec<Cell>,
    points: &[Point],
    a: Point,
    b: Point,
    c: Point,
    d: Point,
) -> Result<(), AllocError>
    requires first { a < b }
    requires second { b < c }
    requires third { c < d }
    ensures { OnOk result (cells.new.items ≡ cells.old.items ++ full_from points.now (a ∷ b ∷ c ∷ d ∷ []) 0 []) }
{
    if is_full_cell(points, a, b, c, d) {
        cells.push(Cell::full(a, b, c, d))?;
    }
    Ok(())
}

// Puts all Open cells behind the cells.
fn push_open(cells: &mut Vec<Cell>, points: &[Point]) -> Result<(), AllocError>
    requires { IsAscending points.now }
    ensures { OnOk result (cells.new.items ≡ cells.old.items ++ open_from points.now [] 3 points.now) }
{
    for i in 0..points.len() {
        push_open_from_one(cells, points, i)?;
    }
    Ok(())
}

// Puts the Open cells that begin with the point at i behind the cells.
fn push_open_from_one(cells: &mut Vec<Cell>, points: &[Point], i: usize) -> Result<(), AllocError>
    requires order { IsAscending points.now }
    requires place { i < length points.now }
    ensures { OnOk result (cells.new.items ≡ cells.old.items
        ++ open_from points.now (slice_index points.now i ∷ []) 2 (drop (i + 1) points.now)) }
{
    for j in i + 1..points.len() {
        push_open_from_two(cells, points, i, j)?;
    }
    Ok(())
}

// Puts the Open cells that begin with the points at i and j behind the cells.
fn push_open_from_two(
    cells: &mut Vec<Cell>,
    points: &[Point],
    i: usize,
    j: usize,
) -> Result<(), AllocError>
    requires order { IsAscending points.now }
    requires first { i < j }
    requires place { j < length points.now }
    ensures { OnOk result (cells.new.items ≡ cells.old.items
        ++ open_from points.now (slice_index points.now i ∷ slice_index points.now j ∷ []) 1
        (drop (j + 1) points.now)) }
{
    let (a, b) = (points[i], points[j]);
    for k in j + 1..points.len() {
        push_if_open(cells, points, a, b, points[k])?;
    }
    Ok(())
}

// Puts three points behind the cells, where they are an Open cell.
fn push_if_open(
    cells: &mut Vec<Cell>,
    points: &[Point],
    a: Point,
    b: Point,
    c: Point,
) -> Result<(), AllocError>
    requires first { a < b }
    requires second { b < c }
    ensures { OnOk result (cells.new.items ≡ cells.old.items ++ open_from points.now (a ∷ b ∷ c ∷ []) 0 []) }
{
    if is_open_cell(points, a, b, c) {
        cells.push(Cell::hull(a, b, c))?;
    }
    Ok(())
}
