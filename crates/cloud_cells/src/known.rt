//! Which cells of two lists are known to be among packed ones.

ghost use Rattle.std.specs.Prelude.{IfOk, List};
ghost use Rattle.point_order.specs.Sets.{IsIn};
ghost use Rattle.point_order.specs.declared.cell.Cell.{Cell as CellParts};
ghost use Rattle.point_order.specs.declared.cell.Cell.TheVariants.{Full, Open};
ghost use Rattle.cloud_cells.specs.Known.{AreMarkedAmong};
ghost use Rattle.cell_slots.specs.Nets.{cells_of_slots};

use crate::listed::place_of;
use cell_lists::QuadList;
use cell_slots::Packed;
use point_order::{Cell, Tri};
use std::alloc::{AllocError, Global};

/// Of each cell and each triple of two lists, whether it is known to be one of the complex.
#[derive(Debug, Drop)]
pub struct Known {
    pub cells: Vec<bool>,
    pub hull: Vec<bool>,
}

/// How two lists of cells stand to a complex.
#[derive(Debug, Drop)]
pub enum Compared {
    /// They are it.
    Same,
    /// They are not known to be it.
    Other(Known),
}

// Notes the cell as known, where it stands at the place of the list.
fn note_cell(marks: &mut Vec<bool>, cells: &QuadList, place: usize, cell: &Cell)
    ensures { (made : List CellParts) → IsIn cell.now made → AreMarkedAmong made Full cells.now marks.old.items
        → AreMarkedAmong made Full cells.now marks.new.items }
{
    if place < marks.len() && place < cells.len() && Cell::Full(cells.at(place)).is_same(cell) {
        marks[place] = true;
    }
}

// The same of a triple.
fn note_triple(marks: &mut Vec<bool>, hull: &[Tri], place: usize, cell: &Cell)
    ensures { (made : List CellParts) → IsIn cell.now made → AreMarkedAmong made Open hull.now marks.old.items
        → AreMarkedAmong made Open hull.now marks.new.items }
{
    if place < marks.len() && place < hull.len() && Cell::Open(hull[place]).is_same(cell) {
        marks[place] = true;
    }
}

// Which cells of the lists, which stand in order, are found among packed ones.
pub(crate) fn known_in(
    alloc: Global,
    slots: &[Packed],
    cells: &QuadList,
    hull: &[Tri],
) -> Result<Known, AllocError>
    ensures cells { IfOk result (λ known. AreMarkedAmong (cells_of_slots slots.now) Full cells.now known.cells.items) }
    ensures hull { IfOk result (λ known. AreMarkedAmong (cells_of_slots slots.now) Open hull.now known.hull.items) }
{
    let mut quads = vec![in alloc; false; cells.len()]?;
    let mut triples = vec![in alloc; false; hull.len()]?;
    for slot in slots {
        if let Some(cell) = slot.cell() {
            let place = place_of(cells, hull, &cell);
            note_cell(&mut quads, cells, place, &cell);
            note_triple(&mut triples, hull, place.saturating_sub(cells.len()), &cell);
        }
    }
    Ok(Known {
        cells: quads,
        hull: triples,
    })
}
