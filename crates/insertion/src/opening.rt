//! The mesh of four independent points.

ghost use Rattle.std.specs.Prelude.{◌≡◌, ◌<◌, ◌∷◌, [], IfOk, OnOk};
ghost use Rattle.point_order.specs.Coordinates.{IsKey};
ghost use Rattle.point_order.specs.Sets.{AreFour, ascending};
ghost use Rattle.cell_store.specs.Meshes.{AllInHand};
ghost use Rattle.cell_store.specs.Changes.{IsNoted};
ghost use Rattle.insertion.specs.Opening.{IsBare, HasCellsOfFour};
ghost use Rattle.opening_entries.specs.Opening.{inserted, opening_history, AreFourIndependent};
ghost use Rattle.hole_laws.specs.FiveCells.{five_cells};

use bucket_grid::Grid;
use cell_store::{Bucket, Hold, Mesh};
use edit_history::{Edit, Entry, Reply};
use point_order::{Cell, Point};
use std::alloc::{AllocError, Global};

// The cells of four points that ascend: the Full cell, and the Open cell on each of its facets.
fn cells_of_four(a: Point, b: Point, c: Point, d: Point) -> [Cell; 5]
    requires first { a < b }
    requires second { b < c }
    requires third { c < d }
    ensures { result ≡ five_cells a b c d }
{
    [
        Cell::full(a, b, c, d),
        Cell::hull(a, b, c),
        Cell::hull(a, b, d),
        Cell::hull(a, c, d),
        Cell::hull(b, c, d),
    ]
}

// A hold of all buckets of the grid, each new.
fn bare_hold(alloc: Global, grid: Grid) -> Result<Hold, AllocError>
    ensures { IfOk result (λ hold. IsBare grid hold) }
{
    let mut hold = Hold::empty(alloc, grid)?;
    for b in 0..grid.count() {
        hold.put(b, Bucket::new(alloc));
    }
    Ok(hold)
}

// The entry of a point that one thread inserts.
pub(crate) fn entry_of(number: u64, tag: u32, point: Point) -> Entry
    ensures { result ≡ inserted number (tag, point) }
{
    Entry {
        number,
        by: 0,
        tag,
        edit: Edit::Add(point),
        reply: Reply::Inserted,
    }
}

// Notes a point of the four in a hold of all buckets.
fn note(alloc: Global, hold: &mut Hold, number: u64, tag: u32, p: Point) -> Result<(), AllocError>
    requires { AllInHand hold.old }
    ensures noted { OnOk result (IsNoted (inserted number (tag, p)) hold.old hold.new) }
    ensures key { OnOk result (IsKey p) }
    ensures all { OnOk result (AllInHand hold.new) }
{
    let none: [Cell; 0] = [];
    let _ = p.key();
    let _ = hold.grid();
    hold.reserve(alloc, &none, &none, &Edit::Add(p))?;
    hold.push_entry(entry_of(number, tag, p));
    Ok(())
}

// The four points, ascending.
fn in_order(a: Point, b: Point, c: Point, d: Point) -> (Point, Point, Point, Point)
    requires { AreFour a b c d }
    ensures points { ascending (a ∷ b ∷ c ∷ d ∷ []) ≡ result.0 ∷ result.1 ∷ result.2 ∷ result.3 ∷ [] }
    ensures first { result.0 < result.1 }
    ensures second { result.1 < result.2 }
    ensures third { result.2 < result.3 }
{
    match Cell::full(a, b, c, d) {
        Cell::Full(quad) => quad.corners(),
        Cell::Open(_) => unreachable!(),
    }
}

// Puts the cells of four points into a hold of all buckets.
fn put_cells(
    alloc: Global,
    hold: &mut Hold,
    a: Point,
    b: Point,
    c: Point,
    d: Point,
) -> Result<(), AllocError>
    requires all { AllInHand hold.old }
    requires distinct { AreFour a b c d }
    ensures cells { OnOk result (HasCellsOfFour (a ∷ b ∷ c ∷ d ∷ []) hold.old hold.new) }
    ensures all { OnOk result (AllInHand hold.new) }
{
    let none: [Cell; 0] = [];
    let (a, b, c, d) = in_order(a, b, c, d);
    let cells = cells_of_four(a, b, c, d);
    let _ = hold.grid();
    hold.reserve(alloc, &none, &cells, &Edit::Add(a))?;
    hold.swap_cells(&none, &cells);
    Ok(())
}

/// The mesh of four independent points, each with a tag. Its history has them as entries
/// 0 to 3 by 0, in this order, all inserted.
///
/// # Errors
/// Want of memory.
pub fn open_mesh(alloc: Global, grid: Grid, four: [(u32, Point); 4]) -> Result<Mesh, AllocError>
    requires { AreFourIndependent four }
    ensures { IfOk result (λ mesh. mesh ≡ record { grid = grid; history = opening_history four }) }
{
    let [(first, a), (second, b), (third, c), (fourth, d)] = four;
    let mut hold = bare_hold(alloc, grid)?;
    note(alloc, &mut hold, 0, first, a)?;
    note(alloc, &mut hold, 1, second, b)?;
    note(alloc, &mut hold, 2, third, c)?;
    note(alloc, &mut hold, 3, fourth, d)?;
    put_cells(alloc, &mut hold, a, b, c, d)?;
    Ok(hold.into_mesh())
}
