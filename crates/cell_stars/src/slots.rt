//! Places with their cells, and beside each cell its links.

ghost use Rattle.std.specs.Prelude.{◌≡◌, None, Some, MatchOption, IsTrue, true, length, ◌≤◌, ◌<◌, ℕ, IfOk};
ghost use Rattle.cell_stars.specs.Places.{at_slot};
ghost use Rattle.point_order.specs.declared.cell.Cell.{Cell};
ghost use Rattle.point_order.specs.Sets.{IsIn};

use crate::links::Links;
use point_order::Cell;
use std::alloc::{AllocError, Global};
use std::marker::Model;

/// A place: its cell with the links of that, or none.
///
/// Contracts see it as the cell. Across each facet that has a point in the bucket the other cell stands in the bucket
/// too, and its place is known as a rule.
#[derive(Debug, Drop)]
pub struct Slot {
    cell: Option<Cell>,
    links: Links,
}

impl Model for Slot {
    ghost use Rattle.std.specs.Prelude.{Option};
    ghost use Rattle.point_order.specs.declared.cell.Cell.{Cell};

    ghost Value = { Option Cell };

    ghost view = { λ s. s.cell };
}

impl Slot {
    // A place with the cell, or with none, and without links.
    pub(crate) fn new(cell: Option<Cell>) -> Slot
        ensures { result ≡ cell }
    {
        Slot {
            cell,
            links: Links::NOWHERE,
        }
    }

    // A copy.
    pub(crate) fn copied(&self) -> Slot
        ensures { result ≡ self.now }
    {
        Slot {
            cell: self.cell,
            links: self.links,
        }
    }

    // Its cell.
    pub(crate) fn cell(&self) -> Option<&Cell>
        ensures { MatchOption result (self.now ≡ None) (λ c. self.now ≡ Some c.now) }
    {
        match &self.cell {
            Some(cell) => Some(cell),
            None => None,
        }
    }

    // The links of its cell.
    pub(crate) fn links(&self) -> Links {
        self.links
    }

    // Links its cell so.
    pub(crate) fn link(&mut self, links: Links)
        ensures { self.new ≡ self.old }
    {
        self.links = links;
    }

    // Exchanges the place across a facet of its cell.
    pub(crate) fn turn_side(&mut self, side: usize, other: &mut u32)
        ensures { self.new ≡ self.old }
    {
        self.links.turn_side(side, other);
    }
}

// The cell at a place, if it is not free.
pub(crate) fn cell_at(slots: &[Slot], i: u32) -> Option<&Cell>
    ensures { MatchOption result (at_slot slots.now i ≡ None) (λ c. at_slot slots.now i ≡ Some c.now) }
{
    match slots.get(i as usize) {
        Some(slot) => slot.cell(),
        None => None,
    }
}

// Whether the cell stands at the place.
pub(crate) fn stands_at(slots: &[Slot], i: u32, cell: &Cell) -> bool
    ensures { IsTrue result → at_slot slots.now i ≡ Some cell.now }
{
    match cell_at(slots, i) {
        Some(other) => other.is_same(cell),
        None => false,
    }
}

// Whether no cell stands at the place.
pub(crate) fn is_open(slots: &[Slot], i: u32) -> bool
    ensures open { IsTrue result → at_slot slots.now i ≡ None }
    ensures behind { length slots.now ≤ i → result ≡ true }
{
    match slots.get(i as usize) {
        Some(slot) => slot.cell().is_none(),
        None => true,
    }
}

// The place of the cell among these, if it stands at one of them.
pub(crate) fn place_among(slots: &[Slot], star: &[u32], cell: &Cell) -> Option<u32>
    ensures { MatchOption result ((i : ℕ) → IsIn i star.now →
        at_slot slots.now i ≡ Some cell.now → ⊥) (λ i. at_slot slots.now i
        ≡ Some cell.now) }
{
    for i in star {
        if let Some(other) = cell_at(slots, *i) {
            if other.is_same(cell) {
                return Some(*i);
            }
        }
    }
    None
}

// A copy of the places, with room for so many.
pub(crate) fn copied_slots(
    alloc: Global,
    slots: &[Slot],
    count: usize,
) -> Result<Vec<Slot>, AllocError>
    ensures { IfOk result (λ list. list.items ≡ slots.now) }
{
    let mut list = Vec::with_capacity(alloc, count)?;
    for slot in slots {
        list.push(slot.copied())?;
    }
    Ok(list)
}
