//! Lists in order, each element once.

ghost use Rattle.std.specs.Prelude.{◌≡◌, ◌↔◌, ◌<◌, ℕ, false, IsTrue};
ghost use Rattle.point_order.specs.CellOrder.{cell_cmp, AreSameCells};
ghost use Rattle.point_order.specs.Sets.{IsIn, IsAscending};
ghost use Rattle.cell_stars.specs.Swaps.{cell_rest, touches as touches_of, Differ};
ghost use Rattle.cell_stars.specs.Moves.{AreCellsMarked};

use bucket_grid::Grid;
use point_order::{Cell, cells_in_order, has_cell};
use std::cmp::Ordering;

// Whether a finite vertex of the cell lies in the bucket.
pub(crate) fn touches(grid: Grid, b: u32, cell: &Cell) -> bool
    ensures { result ≡ touches_of grid b cell.now }
{
    for p in cell.points() {
        if grid.bucket_of(*p) == b {
            return true;
        }
    }
    false
}

// How the two stand in the order of cells.
pub(crate) fn compare(a: &Cell, b: &Cell) -> Ordering
    ensures { result ≡ cell_cmp a.now b.now }
{
    a.cmp(b)
}

// Up to so many cells are compared with each other, rather than put in order.
const FEW: usize = 32;

// The rest of a division, by which most cells that differ are told apart.
fn rest_of(cell: &Cell) -> usize
    ensures rest { result ≡ cell_rest cell.now }
    ensures below { cell_rest cell.now < 509 }
{
    let sum = match cell {
        Cell::Full(quad) => {
            let (a, b, c, d) = quad.corners();
            a.key() + b.key() + c.key() + d.key()
        }
        Cell::Open(tri) => {
            let (a, b, c) = tri.corners();
            a.key() + b.key() + c.key()
        }
    };
    (sum % 509) as usize
}

// Whether the cell is one of these, each of which has a mark at its rest.
fn has_marked(list: &[Cell], marks: &[bool; 509], cell: &Cell) -> bool
    requires { AreCellsMarked marks.now list.now }
    ensures { result ≡ false → IsIn cell.now list.now → ⊥ }
{
    marks[rest_of(cell)] && has_cell(list, cell)
}

// Whether no cell is there twice. From behind, each is looked for among those behind it.
pub(crate) fn do_differ(list: &[Cell]) -> bool
    ensures { IsTrue result → Differ list.now }
{
    let mut marks = [false; 509];
    for k in (0..list.len()).rev() {
        let cell = &list[k];
        if has_marked(&list[k + 1..], &marks, cell) {
            return false;
        }
        marks[rest_of(cell)] = true;
    }
    true
}

// The cells, each once, in any order. It takes no memory.
pub(crate) fn cells_once(list: Vec<Cell>) -> Vec<Cell>
    ensures once { Differ result.items }
    ensures cells { AreSameCells list.items result.items }
{
    if list.len() <= FEW && do_differ(&list) {
        return list;
    }
    cells_in_order(list)
}

// The numbers in order, each once.
pub(crate) fn numbers_in_order(mut list: Vec<u32>) -> Vec<u32>
    ensures order { IsAscending result.items }
    ensures same { (n : ℕ) → IsIn n result.items ↔ IsIn n list.items }
{
    list.sort_unstable();
    list.dedup();
    list
}
