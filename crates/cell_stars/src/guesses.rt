//! Where cells are likely to stand, by the links of others: what lies across their facets, and the cells that go, which
//! lie across the facets of those before them.

ghost use Rattle.std.specs.Prelude.{◌≡◌, IfSome, Some};
ghost use Rattle.cell_stars.specs.Places.{at_slot};

use crate::joined::{Joined, Side};
use crate::links::{Links, NONE};
use crate::slots::{Slot, stands_at};
use crate::stock::{Stock, list_of};
use point_order::Cell;
use std::alloc::{AllocError, Global};

/// The links of the cell at the place.
pub(crate) fn links_at(slots: &[Slot], place: u32) -> Links {
    match slots.get(place as usize) {
        Some(slot) => slot.links(),
        None => Links::NOWHERE,
    }
}

/// The places of the cells that go, as far as they were looked for: none for those that were not found.
///
/// Cells that go are mostly listed as a dig finds them: each across a facet of one before it.
#[derive(Drop)]
pub(crate) struct Guesses {
    pub(crate) places: Vec<u32>,
}

impl Guesses {
    /// Nothing was looked for so far, of at most so many cells.
    pub(crate) fn new(
        alloc: Global,
        stock: &mut Stock,
        count: usize,
    ) -> Result<Guesses, AllocError> {
        Ok(Guesses {
            places: list_of(&mut stock.numbers, alloc, count)?,
        })
    }

    /// Where the next cell stands, if that is across a facet of one that was found.
    pub(crate) fn guess(&self, slots: &[Slot], joined: &Joined, cell: &Cell) -> Option<u32>
        ensures { IfSome result (λ i. at_slot slots.now i ≡ Some cell.now) }
    {
        let sides = joined.before.get(self.places.len())?;
        for side in sides {
            if let Some(side) = side {
                let place = self.place_across(slots, *side);
                if stands_at(slots, place, cell) {
                    return Some(place);
                }
            }
        }
        None
    }

    // The place across the side of a cell before, if that was found.
    fn place_across(&self, slots: &[Slot], side: Side) -> u32 {
        match self.places.get(side.cell as usize) {
            Some(found) => links_at(slots, *found).across(usize::from(side.side)),
            None => NONE,
        }
    }

    /// The next cell was looked for: where it stands, if it was found.
    pub(crate) fn add(&mut self, place: Option<u32>) -> Result<(), AllocError> {
        self.places.push(place.unwrap_or(NONE))?;
        Ok(())
    }
}
