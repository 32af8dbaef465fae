//! The cells of a star and of a bucket, one after another, without memory.

ghost use Rattle.std.specs.Prelude.{◌≡◌, None, Some, MatchOption, false};
ghost use Rattle.std.specs.Ordering.{is_lt};
ghost use Rattle.point_order.specs.CellOrder.{cell_cmp};
ghost use Rattle.cell_stars.specs.Places.{is_after, IsLeastBehind, HaveNone, at_slot};

use crate::order::compare;
use crate::slots::{Slot, cell_at};
use point_order::Cell;

/// The cells at a point, in ascending order. Each is found by a look at all of them.
#[derive(Clone, Copy, Debug)]
pub struct Star<'a> {
    pub(crate) slots: &'a [Slot],
    pub(crate) star: &'a [u32],
    pub(crate) bound: Option<Cell>,
}

/// The cells at a point, each once, in any order.
#[derive(Clone, Copy, Debug)]
pub struct StarCells<'a> {
    pub(crate) slots: &'a [Slot],
    pub(crate) star: &'a [u32],
    pub(crate) last: u32,
}

/// The cells of a bucket, each once, in any order.
#[derive(Clone, Copy, Debug)]
pub struct BucketCells<'a> {
    pub(crate) slots: &'a [Slot],
}

// Whether the cell is behind the bound.
fn is_behind(bound: &Option<Cell>, cell: &Cell) -> bool
    ensures { result ≡ is_after bound.now cell.now }
{
    match bound {
        None => true,
        Some(b) => compare(b, cell).is_lt(),
    }
}

// Whether there is a cell, and it is before the other.
fn is_before(least: Option<&Cell>, cell: &Cell) -> bool
    ensures { MatchOption least.entry (result ≡ false) (λ c. result ≡ is_lt (cell_cmp c.now cell.now)) }
{
    match least {
        None => false,
        Some(c) => compare(c, cell).is_lt(),
    }
}

// The least cell behind the bound at one of the places.
fn least_behind<'a>(slots: &'a [Slot], star: &[u32], bound: &Option<Cell>) -> Option<&'a Cell>
    ensures { MatchOption result (HaveNone slots.now star.now bound.now)
        (λ c. IsLeastBehind slots.now star.now bound.now c.now) }
{
    let mut least: Option<&Cell> = None;
    for i in star {
        if let Some(cell) = cell_at(slots, *i) {
            if is_behind(bound, cell) && !is_before(least, cell) {
                least = Some(cell);
            }
        }
    }
    least
}

impl<'a> Iterator for Star<'a> {
    type Item = &'a Cell;

    ghost use Rattle.std.specs.Iterator.{YieldsFirstRef, item_count};
    ghost use Rattle.cell_stars.specs.Stars.{cells_left};

    ghost next_gives = { YieldsFirstRef cells_left };

    ghost remaining = { item_count cells_left };

    fn next(&mut self) -> Option<&'a Cell> {
        let least = least_behind(self.slots, self.star, &self.bound);
        if let Some(cell) = least {
            self.bound = Some(*cell);
        }
        least
    }
}

impl StarCells<'_> {
    /// Where the cell that came last stands. No clause speaks of it.
    pub fn place(&self) -> u32 {
        self.last
    }
}

impl<'a> Iterator for StarCells<'a> {
    type Item = &'a Cell;

    ghost use Rattle.std.specs.Iterator.{YieldsFirstRef, item_count};
    ghost use Rattle.cell_stars.specs.Stars.{cells_around};

    ghost next_gives = { YieldsFirstRef cells_around };

    ghost remaining = { item_count cells_around };

    fn next(&mut self) -> Option<&'a Cell> {
        while let Some((first, others)) = self.star.split_first() {
            self.star = others;
            self.last = *first;
            if let Some(cell) = cell_at(self.slots, *first) {
                return Some(cell);
            }
        }
        None
    }
}

impl<'a> Iterator for BucketCells<'a> {
    type Item = &'a Cell;

    ghost use Rattle.std.specs.Iterator.{YieldsFirstRef, item_count};
    ghost use Rattle.cell_stars.specs.Stars.{cells_to_come};

    ghost next_gives = { YieldsFirstRef cells_to_come };

    ghost remaining = { item_count cells_to_come };

    fn next(&mut self) -> Option<&'a Cell> {
        while let Some((first, others)) = self.slots.split_first() {
            self.slots = others;
            if let Some(cell) = first.cell() {
                return Some(cell);
            }
        }
        None
    }
}
