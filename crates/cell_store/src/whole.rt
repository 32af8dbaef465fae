//! A mesh that is made whole, of a history and the cells of what it leaves.

ghost use Rattle.std.specs.Prelude.{◌≡◌, ℕ, ◌*◌, ◌+◌, ◌<◌, ◌≤◌, ◌^◌, true, [], List, IfOk, OnOk, Some, IsSome, length};
ghost use Rattle.std.specs.Prelude.{map, slice_get, ◌==◌};
ghost use Rattle.std.specs.List.{list_any};
ghost use Rattle.std.specs.List.Sorted.{IsStrictlySortedBy};
ghost use Rattle.point_order.specs.declared.cell.Cell.{Cell};
ghost use Rattle.point_order.specs.CellOrder.{cell_cmp};
ghost use Rattle.point_order.specs.Complex.{complex};
ghost use Rattle.point_order.specs.Facets.{points_of};
ghost use Rattle.point_order.specs.Sets.{IsIn, IsAscending};
ghost use Rattle.edit_history.specs.declared.history.Entry.{Entry as EntryOf};
ghost use Rattle.point_order.specs.Solid.{is_solid};
ghost use Rattle.edit_history.specs.Histories.{IsLegal, replay};
ghost use Rattle.del_laws.specs.Keys.{AreKeys};
ghost use Rattle.cell_store.specs.Buckets.{content_of};
ghost use Rattle.bucket_grid.specs.Grids.{bucket_of as number_of};
ghost use Rattle.cell_store.specs.Shares.{IsShare, IsSound};
ghost use Rattle.cell_store.specs.Swaps.{touches as touches_of};
ghost use Rattle.cell_store.specs.Wholes.{AreAt, AreCellsParted, AreParted, ArePartsFrom, IsPushedAt, IsPushedWhere};
ghost use Rattle.cell_store.specs.Wholes.{is_noted_at, lies_at, list_at};

use crate::bucket::Bucket;
use crate::hold::Hold;
use crate::mesh::Mesh;
use bucket_grid::Grid;
use cell_stars::{Cells, as_number};
use edit_history::Entry;
use point_order::{Cell, Point};
use std::alloc::{AllocError, Global};
use std::mem::replace;

// What buckets get, each at its number: its points, its entries, and the places of its cells in the list of all.
#[derive(Drop)]
struct Parts {
    points: Vec<Vec<Point>>,
    entries: Vec<Vec<Entry>>,
    cells: Vec<Vec<u32>>,
}

// An empty list for each bucket of the grid.
fn empty_lists<T: Drop>(alloc: Global, grid: Grid) -> Result<Vec<Vec<T>>, AllocError>
    ensures count { IfOk result (λ lists. length (map (λ v. v.items) lists.items) ≡ grid * grid * grid) }
    ensures empty { IfOk result (λ lists. (b : ℕ) → list_at (map (λ v. v.items) lists.items) b ≡ []) }
{
    let count = grid.count();
    let mut lists = Vec::with_capacity(alloc, count as usize)?;
    for _ in 0..count {
        lists.push(Vec::new(alloc))?;
    }
    Ok(lists)
}

// Puts an element last in the list with the number.
fn push_at<T: Drop>(lists: &mut Vec<Vec<T>>, b: u32, x: T) -> Result<(), AllocError>
    requires { b < length lists.old.items }
    ensures { OnOk result (IsPushedAt b x (map (λ v. v.items) lists.old.items) (map (λ v. v.items) lists.new.items)) }
{
    lists[b as usize].push(x)?;
    Ok(())
}

// The points of each bucket, in their order.
fn points_by_bucket(
    alloc: Global,
    grid: Grid,
    points: &[Point],
) -> Result<Vec<Vec<Point>>, AllocError>
    ensures { IfOk result (λ lists. AreParted grid (lies_at grid) points.now (map (λ v. v.items) lists.items)) }
{
    let mut lists = empty_lists(alloc, grid)?;
    for p in points {
        push_at(&mut lists, grid.bucket_of(*p), *p)?;
    }
    Ok(lists)
}

// The entries of each bucket, in their order.
fn entries_by_bucket(
    alloc: Global,
    grid: Grid,
    entries: &[Entry],
) -> Result<Vec<Vec<Entry>>, AllocError>
    ensures { IfOk result (λ lists. AreParted grid (is_noted_at grid) entries.now (map (λ v. v.items) lists.items)) }
{
    let mut lists = empty_lists(alloc, grid)?;
    for entry in entries {
        push_at(&mut lists, grid.bucket_of(entry.edit.point()), *entry)?;
    }
    Ok(lists)
}

// Whether one of the points lies in the bucket.
fn has_here(grid: Grid, b: u32, points: &[Point]) -> bool
    ensures { result ≡ list_any (lies_at grid b) points.now }
{
    for p in points {
        if grid.bucket_of(*p) == b {
            return true;
        }
    }
    false
}

// Puts the place of a cell last in the lists of the buckets of its vertices, in each once.
fn push_place(
    lists: &mut Vec<Vec<u32>>,
    grid: Grid,
    cell: &Cell,
    place: u32,
) -> Result<(), AllocError>
    requires { length lists.old.items ≡ grid * grid * grid }
    ensures { OnOk result (IsPushedWhere (λ b. touches_of grid b cell.now) place (map (λ v. v.items) lists.old.items)
        (map (λ v. v.items) lists.new.items)) }
{
    let points = cell.points();
    for k in 0..points.len() {
        let b = grid.bucket_of(points[k]);
        if !has_here(grid, b, &points[..k]) {
            push_at(lists, b, place)?;
        }
    }
    Ok(())
}

// The places of the cells that touch each bucket, in their order.
fn places_by_bucket(alloc: Global, grid: Grid, cells: &[Cell]) -> Result<Vec<Vec<u32>>, AllocError>
    requires { length cells.now < 2 ^ 32 }
    ensures { IfOk result (λ lists. AreCellsParted grid cells.now cells.now (map (λ v. v.items) lists.items)) }
{
    let mut lists = empty_lists(alloc, grid)?;
    for (place, cell) in cells.iter().enumerate() {
        push_place(&mut lists, grid, cell, place as u32)?;
    }
    Ok(lists)
}

// The cells at some places of a list.
fn cells_at(alloc: Global, cells: &[Cell], places: &[u32]) -> Result<Vec<Cell>, AllocError>
    requires { (i : ℕ) → IsIn i places.now → i < length cells.now }
    ensures { IfOk result (λ list. AreAt cells.now places.now list.items) }
{
    let mut list = Vec::with_capacity(alloc, places.len())?;
    for place in places {
        list.push(cells[*place as usize])?;
    }
    Ok(list)
}

// The bucket with a number of these points, entries and cells.
fn bucket_of_lists(
    alloc: Global,
    grid: Grid,
    b: u32,
    points: Vec<Point>,
    entries: Vec<Entry>,
    cells: &[Cell],
) -> Result<Bucket, AllocError>
    requires points { IsAscending points.items }
    requires order { IsStrictlySortedBy cell_cmp cells.now }
    requires touching { (c : Cell) → IsIn c cells.now → touches_of grid b c ≡ true }
    ensures { IfOk result (λ bucket. content_of bucket ≡ record {
      points = points.items;
      cells = cells.now;
      entries = entries.items;
      place = Some (grid, b);
    }) }
{
    let cells = Cells::of_cells(alloc, grid, b, cells)?;
    Ok(Bucket::of_parts(points, cells, entries))
}

impl Parts {
    // What the buckets get of a history, of the points that it leaves, and of their cells.
    fn of(
        alloc: Global,
        grid: Grid,
        entries: &[Entry],
        points: &[Point],
        cells: &[Cell],
    ) -> Result<Parts, AllocError>
        requires points { points.now ≡ replay entries.now }
        requires cells { cells.now ≡ complex (replay entries.now) }
        requires small { length cells.now < 2 ^ 32 }
        ensures { IfOk result (ArePartsFrom grid 0 entries.now cells.now) }
    {
        Ok(Parts {
            points: points_by_bucket(alloc, grid, points)?,
            entries: entries_by_bucket(alloc, grid, entries)?,
            cells: places_by_bucket(alloc, grid, cells)?,
        })
    }

    // The bucket with the number, which gets what is there for it.
    fn bucket(
        &mut self,
        alloc: Global,
        grid: Grid,
        b: u32,
        cells: &[Cell],
    ) -> Result<Bucket, AllocError>
        requires below { b < grid * grid * grid }
        requires parts { (h : List EntryOf) × IsSound h × ArePartsFrom grid b h cells.now self.old }
        ensures parts { OnOk result ((h : List EntryOf) → ArePartsFrom grid b h cells.now self.old →
            ArePartsFrom grid (b + 1) h cells.now self.new) }
        ensures share { IfOk result (λ bucket. (h : List EntryOf) → ArePartsFrom grid b h cells.now self.old →
            IsShare grid b h (content_of bucket)) }
        ensures place { IfOk result (λ bucket. (content_of bucket).place ≡ Some (grid, b)) }
    {
        let at = b as usize;
        let points = replace(&mut self.points[at], Vec::new(alloc));
        let entries = replace(&mut self.entries[at], Vec::new(alloc));
        let places = replace(&mut self.cells[at], Vec::new(alloc));
        let cells = cells_at(alloc, cells, &places)?;
        let bucket = bucket_of_lists(alloc, grid, b, points, entries, &cells)?;
        Ok(bucket)
    }
}

// Reads each key, so that it is known to be one.
fn read_keys(points: &[Point])
    ensures { AreKeys points.now }
{
    for point in points {
        let _ = point.key();
    }
}

impl Mesh {
    /// The mesh of a history and of what it leaves: its points, ascending, and the cells of their complex, in order.
    /// The history is to be legal, and the points solid. No cell is looked for: for n cells and entries it takes about
    /// n log n steps.
    ///
    /// # Errors
    /// Want of memory, or of a number of 32 bits for a place or a star.
    pub fn of_history(
        alloc: Global,
        grid: Grid,
        entries: &[Entry],
        points: &[Point],
        cells: &[Cell],
    ) -> Result<Mesh, AllocError>
        requires legal { IsLegal entries.now }
        requires points { points.now ≡ replay entries.now }
        requires solid { is_solid points.now ≡ true }
        requires cells { cells.now ≡ complex points.now }
        ensures { IfOk result (λ mesh. mesh ≡ record { grid = grid; history = entries.now }) }
    {
        as_number(cells.len())?;
        read_keys(points);
        let mut parts = Parts::of(alloc, grid, entries, points, cells)?;
        let mut hold = Hold::empty(alloc, grid)?;
        for b in 0..grid.count() {
            let bucket = parts.bucket(alloc, grid, b, cells)?;
            hold.put(b, bucket);
        }
        Ok(hold.into_mesh())
    }
}
