//! Cells gathered by their labels.

ghost use Rattle.std.specs.Prelude.{◌≡◌, ◌<◌, ℕ, None, Some, false, length, slice_index_or, IfOk, OnOk};
ghost use Rattle.std.specs.List.Sorted.{IsStrictlySortedBy};
ghost use Rattle.point_order.specs.CellOrder.{cell_cmp};
ghost use Rattle.face_list.specs.Tables.{cell_at};
ghost use Rattle.alpha_complex.specs.Slots.{marked_cell};
ghost use Rattle.solid_parts.specs.Gathered.{IsGathered, IsGroupedIn, place_at};
ghost use Rattle.solid_parts.specs.Groups.{AreLabelsBelow};
ghost use Rattle.solid_parts.specs.Seen.{parts_seen};

use crate::part::Part;
use point_order::{Cell, Quad};
use std::alloc::{AllocError, Global};

// The place of a label, if there is one.
fn place_of_label(places: &[Option<usize>], label: u32) -> Option<usize>
    requires { label < length places.now }
    ensures { result ≡ place_at places.now label }
{
    places[label as usize]
}

// Puts a cell to the part of its label, or to a new one where it is the first of its label.
fn put_cell(
    alloc: Global,
    parts: &mut Vec<Part>,
    places: &mut Vec<Option<usize>>,
    label: u32,
    quad: Quad,
) -> Result<(), AllocError>
    requires label { label < length places.old.items }
    requires place { (p : ℕ) → place_at places.old.items label ≡ Some p → p < length parts.old.items }
    ensures { OnOk result (IsGroupedIn label quad places.old.items places.new.items (parts_seen parts.old.items)
        (parts_seen parts.new.items)) }
{
    match place_of_label(places, label) {
        Some(place) => parts[place].cells.push(quad)?,
        None => {
            let mut cells = Vec::new(alloc);
            cells.push(quad)?;
            places[label as usize] = Some(parts.len());
            parts.push(Part { cells })?;
        }
    }
    Ok(())
}

// As many places as there are labels, and nothing at any.
fn no_places(alloc: Global, count: usize) -> Result<Vec<Option<usize>>, AllocError>
    ensures count { IfOk result (λ v. length v.items ≡ count) }
    ensures none { IfOk result (λ v. (l : ℕ) → place_at v.items l ≡ None) }
{
    let mut places = Vec::with_capacity(alloc, count)?;
    for index in 0..count {
        places.push(None)?;
    }
    Ok(places)
}

// The points of a cell, where it is Full and marked.
fn marked(cell: Cell, mark: bool) -> Option<Quad>
    ensures { result ≡ marked_cell cell mark }
{
    match cell {
        Cell::Full(quad) => { if mark { Some(quad) } else { None } }
        Cell::Open(_) => None,
    }
}

// The points of the cell of an index, where it is Full and marked.
fn marked_at(cells: &[Cell], marks: &[bool], index: usize) -> Option<Quad>
    requires cells { index < length cells.now }
    requires marks { index < length marks.now }
    ensures { result ≡ marked_cell (cell_at cells.now index) (slice_index_or marks.now index false) }
{
    marked(cells[index], marks[index])
}

/// The marked Full cells, label by label, in the order of the first cell of each label.
///
/// # Errors
/// Want of memory.
pub fn gather(
    alloc: Global,
    cells: &[Cell],
    marks: &[bool],
    labels: &[u32],
) -> Result<Vec<Part>, AllocError>
    requires order { IsStrictlySortedBy cell_cmp cells.now }
    requires marks { length marks.now ≡ length cells.now }
    requires labels { length labels.now ≡ length cells.now }
    requires below { AreLabelsBelow (length cells.now) labels.now }
    ensures { IfOk result (λ parts. IsGathered cells.now marks.now labels.now (length cells.now)
        (parts_seen parts.items)) }
{
    let mut parts = Vec::new(alloc);
    let mut places = no_places(alloc, cells.len())?;
    for index in 0..cells.len() {
        match marked_at(cells, marks, index) {
            Some(quad) => put_cell(alloc, &mut parts, &mut places, labels[index], quad)?,
            None => {}
        }
    }
    Ok(parts)
}
