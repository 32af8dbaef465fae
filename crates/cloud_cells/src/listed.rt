//! Whether packed cells are those of two lists.

ghost use Rattle.std.specs.Prelude.{◌≡◌, ◌++◌, true, map, IfSome};
ghost use Rattle.point_order.specs.Sets.{IsIn};
ghost use Rattle.point_order.specs.declared.cell.Cell.TheVariants.{Full, Open};
ghost use Rattle.cell_slots.specs.Nets.{AreAllIn};

use cell_lists::QuadList;
use cell_slots::Packed;
use point_order::{Cell, Tri};
use std::cmp::Ordering;

// The cell at a place of the cells and the triples behind them.
fn listed_at(cells: &QuadList, hull: &[Tri], place: usize) -> Option<Cell>
    ensures { IfSome result (λ c. IsIn c (map Full cells.now ++ map Open hull.now)) }
{
    if place < cells.len() {
        return Some(Cell::Full(cells.at(place)));
    }
    match hull.get(place - cells.len()) {
        Some(tri) => Some(Cell::Open(*tri)),
        None => None,
    }
}

// Whether the cell at a place is before another.
fn is_before(cells: &QuadList, hull: &[Tri], place: usize, cell: &Cell) -> bool {
    match listed_at(cells, hull, place) {
        Some(other) => match other.compare(cell) {
            Ordering::Less => true,
            _ => false,
        },
        None => false,
    }
}

// Where the cell would stand among those in order. It is looked at before it is believed.
pub(crate) fn place_of(cells: &QuadList, hull: &[Tri], cell: &Cell) -> usize {
    let mut low = 0;
    let mut high = cells.len().saturating_add(hull.len());
    while low < high {
        let middle = low + (high - low) / 2;
        if is_before(cells, hull, middle, cell) {
            low = middle + 1;
        } else {
            high = middle;
        }
    }
    low
}

// Whether the cell is found among those of the lists.
fn is_listed(cells: &QuadList, hull: &[Tri], cell: &Cell) -> bool
    ensures { result ≡ true → IsIn cell.now (map Full cells.now ++ map Open hull.now) }
{
    match listed_at(cells, hull, place_of(cells, hull, cell)) {
        Some(other) => other.is_same(cell),
        None => false,
    }
}

// Whether packed cells are found among those of the lists, and are as many.
pub(crate) fn are_all(slots: &[Packed], cells: &QuadList, hull: &[Tri]) -> bool
    ensures { result ≡ true → AreAllIn slots.now cells.now hull.now }
{
    let mut count = 0;
    for slot in slots {
        if let Some(cell) = slot.cell() {
            if !is_listed(cells, hull, &cell) {
                return false;
            }
            count += 1;
        }
    }
    cells.len() <= count && count - cells.len() == hull.len()
}
