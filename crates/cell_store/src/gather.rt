//! What all buckets of a grid have together.

ghost use Rattle.std.specs.Prelude.{◌≡◌, ◌∷◌, ◌++◌, [], ℕ, List, length, IfOk, OnOk};
ghost use Rattle.std.specs.List.{filter, flat_map};
ghost use Rattle.std.specs.List.Sorted.{IsNonDecreasingBy, IsPermutation};
ghost use Rattle.point_order.specs.Complex.{complex as complex_of};
ghost use Rattle.edit_history.specs.Histories.{replay};
ghost use Rattle.edit_history.specs.declared.history.Entry.{Entry};
ghost use Rattle.cell_store.specs.Buckets.{content_of};
ghost use Rattle.cell_store.specs.Shares.{IsSound, Stands, Shows};
ghost use Rattle.cell_store.specs.Meshes.{AllInHand, IsWhole, StandsForSome, all_entries};
ghost use Rattle.cell_store.specs.Gathered.{AreGatheredFrom, HasHome, home_of, is_home};

use crate::bucket::Bucket;
use crate::hold::Hold;
use crate::mesh::Mesh;
use bucket_grid::Grid;
use edit_history::Entry;
use point_order::{Cell, cells_in_order};
use std::alloc::{AllocError, Global};

impl Hold {
    /// The history for which the hold stands. Every bucket is to be in hand.
    ///
    /// # Errors
    /// Want of memory.
    pub fn history(&self, alloc: Global) -> Result<Vec<Entry>, AllocError>
        requires all { AllInHand self.now }
        requires stands { StandsForSome self.now }
        ensures { IfOk result (λ entries. (h : List Entry) → Stands self.now h → entries.items ≡ h) }
    {
        let entries = self.all_entries(alloc)?;
        Ok(in_order(entries))
    }

    /// The complex of the set that the hold shows: its cells, sorted. Every bucket is to be in hand.
    ///
    /// # Errors
    /// Want of memory.
    pub fn complex(&self, alloc: Global) -> Result<Vec<Cell>, AllocError>
        requires { AllInHand self.now }
        ensures { IfOk result (λ cells. (s : List ℕ) → Shows self.now s → cells.items ≡ complex_of s) }
    {
        let cells = self.all_cells(alloc)?;
        Ok(cells_in_order(cells))
    }

    // The entries of all buckets.
    fn all_entries(&self, alloc: Global) -> Result<Vec<Entry>, AllocError>
        requires { AllInHand self.now }
        ensures list { IfOk result (λ list. list.items ≡ all_entries self.now.places) }
        ensures whole { OnOk result (IsWhole self.now) }
    {
        let mut list = Vec::with_capacity(alloc, self.count_entries() as usize)?;
        for b in 0..self.grid().count() {
            list.extend_from_slice(self.bucket(b).entries())?;
        }
        Ok(list)
    }

    // How many cells there are in all buckets, where each is counted in the bucket of its first point.
    fn count_cells(&self) -> usize
        requires { AllInHand self.now }
    {
        let grid = self.grid();
        let mut count: usize = 0;
        for b in 0..grid.count() {
            count = count.saturating_add(count_home(grid, b, self.bucket(b)));
        }
        count
    }

    // The cells of all buckets, each from the bucket of its first point.
    fn all_cells(&self, alloc: Global) -> Result<Vec<Cell>, AllocError>
        requires { AllInHand self.now }
        ensures list { IfOk result (λ list. AreGatheredFrom self.now (length self.now.places) list.items) }
        ensures whole { OnOk result (IsWhole self.now) }
    {
        let grid = self.grid();
        let mut list = Vec::with_capacity(alloc, self.count_cells())?;
        for b in 0..grid.count() {
            push_cells(&mut list, grid, b, self.bucket(b))?;
        }
        Ok(list)
    }

    // The entries of all buckets, and for each bucket the cells that have their first point there. A bucket is let go
    // once it is read.
    fn into_lists(mut self, alloc: Global) -> Result<(Vec<Entry>, Vec<Vec<Cell>>), AllocError>
        requires { AllInHand self }
        ensures entries { IfOk result (λ both. both.0.items ≡ all_entries self.places) }
        ensures lists { IfOk result (λ both. AreGatheredFrom self (length self.places)
            (flat_map (λ list. list.items) both.1.items)) }
        ensures whole { OnOk result (IsWhole self) }
    {
        let grid = self.grid();
        let mut log = Vec::with_capacity(alloc, self.count_entries() as usize)?;
        let mut lists = Vec::with_capacity(alloc, grid.count() as usize)?;
        for b in 0..grid.count() {
            let bucket = self.take(b);
            log.extend_from_slice(bucket.entries())?;
            let list = home_cells(alloc, grid, b, &bucket)?;
            lists.push(list)?;
        }
        Ok((log, lists))
    }
}

impl Mesh {
    /// The history, and the complex of the points that it leaves: its cells, sorted. A bucket is let go once it is
    /// read, so that these take the memory that it had.
    ///
    /// # Errors
    /// Want of memory.
    pub fn into_parts(self, alloc: Global) -> Result<(Vec<Entry>, Vec<Cell>), AllocError>
        ensures history { IfOk result (λ parts. parts.0.items ≡ self.history) }
        ensures cells { IfOk result (λ parts. parts.1.items ≡ complex_of (replay self.history)) }
        ensures sound { IsSound self.history }
    {
        let (log, lists) = self.into_hold().into_lists(alloc)?;
        let cells = joined(alloc, lists)?;
        Ok((in_order(log), cells_in_order(cells)))
    }
}

// The entries, by their numbers.
fn in_order(mut entries: Vec<Entry>) -> Vec<Entry>
    ensures same { IsPermutation entries.items result.items }
    ensures order { IsNonDecreasingBy (λ e. e.number) result.items }
{
    entries.sort_unstable_by_key(|entry| entry.number);
    entries
}

// The number of the bucket of the cell's first point.
fn home(grid: Grid, cell: &Cell) -> u32
    ensures { result ≡ home_of grid cell.now }
{
    match cell.points() {
        [first, ..] => grid.bucket_of(*first),
        [] => 0,
    }
}

// Whether that is this one.
fn is_at_home(grid: Grid, b: u32, cell: &Cell) -> bool
    ensures { result ≡ is_home grid b cell.now }
{
    home(grid, cell) == b
}

// How many cells of a bucket have their first point there.
fn count_home(grid: Grid, b: u32, bucket: &Bucket) -> usize {
    let mut count: usize = 0;
    for cell in bucket.cells() {
        if is_at_home(grid, b, cell) {
            count = count.saturating_add(1);
        }
    }
    count
}

// Puts the cell behind the others, if that is its bucket.
fn push_cell(list: &mut Vec<Cell>, grid: Grid, b: u32, cell: &Cell) -> Result<(), AllocError>
    ensures { OnOk result (list.new.items ≡ list.old.items ++ filter (is_home grid b) (cell.now ∷ [])) }
{
    if is_at_home(grid, b, cell) {
        list.push(*cell)?;
    }
    Ok(())
}

// Puts the cells of a bucket that have their first point there behind the cells, in any order.
fn push_cells(list: &mut Vec<Cell>, grid: Grid, b: u32, bucket: &Bucket) -> Result<(), AllocError>
    ensures { OnOk result (HasHome grid b (content_of bucket.now).cells list.old.items list.new.items) }
{
    for cell in bucket.cells() {
        push_cell(list, grid, b, cell)?;
    }
    Ok(())
}

// The cells of a bucket that have their first point there, in any order.
fn home_cells(alloc: Global, grid: Grid, b: u32, bucket: &Bucket) -> Result<Vec<Cell>, AllocError>
    ensures { IfOk result (λ list. HasHome grid b (content_of bucket.now).cells [] list.items) }
{
    let mut list = Vec::with_capacity(alloc, count_home(grid, b, bucket))?;
    push_cells(&mut list, grid, b, bucket)?;
    Ok(list)
}

// How many cells there are in all lists.
fn count_all(lists: &[Vec<Cell>]) -> usize {
    let mut count: usize = 0;
    for list in lists {
        count = count.saturating_add(list.len());
    }
    count
}

// The cells of all lists, one list after another. A list is let go once it is read.
fn joined(alloc: Global, lists: Vec<Vec<Cell>>) -> Result<Vec<Cell>, AllocError>
    ensures { IfOk result (λ cells. cells.items ≡ flat_map (λ list. list.items) lists.items) }
{
    let mut cells = Vec::with_capacity(alloc, count_all(lists.as_slice()))?;
    for list in lists {
        cells.extend_from_slice(&list)?;
    }
    Ok(cells)
}
