//! The cells of a bucket that are put in all at once.

ghost use Rattle.std.specs.Prelude.{◌≡◌, ◌<◌, ◌^◌, ◌++◌, ◌∷◌, ℕ, true, [], IfOk, OnOk, Some, length, map};
ghost use Rattle.std.specs.List.Sorted.{IsStrictlySortedBy};
ghost use Rattle.point_order.specs.declared.cell.Cell.{Cell};
ghost use Rattle.point_order.specs.CellOrder.{cell_cmp};
ghost use Rattle.point_order.specs.Facets.{points_of};
ghost use Rattle.point_order.specs.Sets.{IsIn, IsAscending};
ghost use Rattle.cell_stars.specs.AtOnce.{AreKeyed, AreNumberedTo, FromCellHere, GainsPlaces, HaveKeys, StandsAtHere};
ghost use Rattle.cell_stars.specs.AtOnce.{StandsHere};
ghost use Rattle.list_laws.specs.Lists.{Gathers};
ghost use Rattle.cell_stars.specs.Places.{cells_of};
ghost use Rattle.cell_stars.specs.Swaps.{touches as touches_of};

use crate::around::Around;
use crate::cells::Cells;
use crate::doors::links_of;
use crate::free::Free;
use crate::links::{Around4, Links};
use crate::numbers::as_number;
use crate::parts::{count_for, filed_keys};
use crate::slots::Slot;
use crate::steps::place_of;
use bucket_grid::Grid;
use point_order::{Cell, Point, points_in_order};
use std::alloc::{AllocError, Global};

// A place with a cell, and with the links of the cell with the number.
fn linked_slot(cell: &Cell, links: &[Around4], number: usize) -> Slot
    ensures { result ≡ Some cell.now }
{
    let mut slot = Slot::new(Some(*cell));
    if let Some(around) = links.get(number) {
        slot.link(Links { around: *around });
    }
    slot
}

// A place for each of the cells, which have these links.
fn slots_of(alloc: Global, cells: &[Cell], links: &[Around4]) -> Result<Vec<Slot>, AllocError>
    ensures { IfOk result (λ slots. slots.items ≡ map (λ c. Some c) cells.now) }
{
    let mut slots = Vec::with_capacity(alloc, cells.len())?;
    for (number, cell) in cells.iter().enumerate() {
        slots.push(linked_slot(cell, links, number))?;
    }
    Ok(slots)
}

// Adds the vertices of the cell that lie in the bucket.
fn add_here(list: &mut Vec<Point>, grid: Grid, number: u32, cell: &Cell) -> Result<(), AllocError>
    ensures { OnOk result (Gathers (StandsHere grid number) (points_of cell.now) list.old.items list.new.items) }
{
    for p in cell.points() {
        if grid.bucket_of(*p) == number {
            list.push(*p)?;
        }
    }
    Ok(())
}

// The vertices of the cells that lie in the bucket, ascending.
fn vertices_here(
    alloc: Global,
    grid: Grid,
    number: u32,
    cells: &[Cell],
) -> Result<Vec<Point>, AllocError>
    ensures order { IfOk result (λ list. IsAscending list.items) }
    ensures vertices { IfOk result (λ list. Gathers (FromCellHere grid number) cells.now [] list.items) }
{
    let mut list = Vec::with_capacity(alloc, cells.len())?;
    for cell in cells {
        add_here(&mut list, grid, number, cell)?;
    }
    Ok(points_in_order(list))
}

// The vertices, each with its place for the number of its star.
fn keys_of(alloc: Global, vertices: &[Point]) -> Result<Vec<(Point, u32)>, AllocError>
    requires { length vertices.now < 2 ^ 32 }
    ensures { IfOk result (λ keys. AreNumberedTo (length vertices.now) vertices.now keys.items) }
{
    let mut keys = Vec::with_capacity(alloc, vertices.len())?;
    for (number, p) in vertices.iter().enumerate() {
        keys.push((*p, number as u32))?;
    }
    Ok(keys)
}

// A star without places for each vertex.
fn bare_stars(alloc: Global, vertices: &[Point]) -> Result<Vec<Around>, AllocError>
    ensures { IfOk result (λ stars. stars.items ≡ map (λ p. (p, [])) vertices.now) }
{
    let mut stars = Vec::with_capacity(alloc, vertices.len())?;
    for p in vertices {
        stars.push(Around {
            vertex: *p,
            places: Vec::new(alloc),
        })?;
    }
    Ok(stars)
}

// Adds a place to the star.
fn push_place(star: &mut Around, i: u32) -> Result<(), AllocError>
    ensures { OnOk result (star.new ≡ (star.old.0, star.old.1 ++ i ∷ [])) }
{
    star.places.push(i)?;
    Ok(())
}

// Adds a place to the star of the vertex, which has one.
fn add_place(
    keys: &[(Point, u32)],
    stars: &mut [Around],
    p: Point,
    i: u32,
) -> Result<(), AllocError>
    requires keyed { AreKeyed keys.now stars.old }
    requires key { (n : ℕ) × IsIn (p, n) keys.now }
    ensures { OnOk result (GainsPlaces keys.now (λ q j. (p ≡ q) × (i ≡ j)) stars.old stars.new) }
{
    match place_of(keys, p) {
        Ok(at) => push_place(&mut stars[keys[at].1 as usize], i)?,
        Err(_) => unreachable!(),
    }
    Ok(())
}

// Adds the place of a cell to the stars of its vertices that lie in the bucket, which have stars.
fn add_places(
    keys: &[(Point, u32)],
    stars: &mut [Around],
    grid: Grid,
    number: u32,
    cell: &Cell,
    i: u32,
) -> Result<(), AllocError>
    requires keyed { AreKeyed keys.now stars.old }
    requires keys { HaveKeys (FromCellHere grid number cell.now) keys.now }
    ensures { OnOk result (GainsPlaces keys.now (λ q j. FromCellHere grid number cell.now q × (i ≡ j)) stars.old
        stars.new) }
{
    for p in cell.points() {
        if grid.bucket_of(*p) == number {
            add_place(keys, stars, *p, i)?;
        }
    }
    Ok(())
}

// Adds the places of all cells.
fn add_all(
    keys: &[(Point, u32)],
    stars: &mut [Around],
    grid: Grid,
    number: u32,
    cells: &[Cell],
) -> Result<(), AllocError>
    requires small { length cells.now < 2 ^ 32 }
    requires keyed { AreKeyed keys.now stars.old }
    requires keys { (c : Cell) → IsIn c cells.now → HaveKeys (FromCellHere grid number c) keys.now }
    ensures { OnOk result (GainsPlaces keys.now (StandsAtHere grid number cells.now (length cells.now)) stars.old
        stars.new) }
{
    for (i, cell) in cells.iter().enumerate() {
        add_places(keys, stars, grid, number, cell, i as u32)?;
    }
    Ok(())
}

impl Cells {
    /// The cells of a bucket that stands in the grid at the number, put in all at once. They are to be in order, each
    /// once, and each is to have a vertex there. For n cells it takes about n log n steps.
    ///
    /// # Errors
    /// Want of memory, or of a number of 32 bits for a place or a star.
    pub fn of_cells(
        alloc: Global,
        grid: Grid,
        number: u32,
        cells: &[Cell],
    ) -> Result<Cells, AllocError>
        requires order { IsStrictlySortedBy cell_cmp cells.now }
        requires touching { (c : Cell) → IsIn c cells.now → touches_of grid number c ≡ true }
        ensures place { IfOk result (λ made. made.place ≡ Some (grid, number)) }
        ensures cells { IfOk result (λ made. cells_of made.slots ≡ cells.now) }
    {
        let vertices = vertices_here(alloc, grid, number, cells)?;
        let used = as_number(cells.len())?;
        let used_stars = as_number(vertices.len())?;
        let keys = keys_of(alloc, &vertices)?;
        let mut stars = bare_stars(alloc, &vertices)?;
        add_all(&keys, &mut stars, grid, number, cells)?;
        let parts = filed_keys(alloc, count_for(keys.len()), &keys)?;
        let mut made = Cells::new(alloc).placed(grid, number);
        made.free = Free::from_on(alloc, used);
        made.spare = Free::from_on(alloc, used_stars);
        made.slots = slots_of(alloc, cells, &links_of(alloc, cells)?)?;
        made.keys = parts;
        made.stars = stars;
        Ok(made)
    }
}
