//! The cells that a dig found.

ghost use Rattle.std.specs.Prelude.{◌≡◌, ◌<◌, ◌^◌, ◌↔◌, [], ◌∷◌, ◌++◌, length, IfOk, OnOk, OnErr, IsTrue, MatchOption};
ghost use Rattle.point_order.specs.Sets.{IsIn};
ghost use Rattle.cavity.specs.Lists.{IsPast, IsAtPlace};
ghost use Rattle.cavity.specs.Tables.{IsBeside, cell_number};

use crate::cell_table::{Mark, home_of, is_marked, put, table_of};
use cell_store::{Hold, Spot};
use point_order::{Cell, Facet};
use std::alloc::{AllocError, Global};
use std::marker::Model;

// As many cells as a new point mostly takes away at the most: room for them is made at once.
const USUAL: usize = 48;

// One less than the homes of the table at first.
const MASK: usize = 63;

// The cells that go, in the order in which they were found. A table leads from a cell to its place in their list.
#[derive(Drop)]
pub(crate) struct Judged {
    goes: Vec<Spot>,
    marks: Vec<Mark>,
    mask: usize,
    // Beside which of those that go each was found, none for the first.
    beside: Vec<usize>,
}

impl Model for Judged {
    ghost use Rattle.std.specs.Prelude.{List};
    ghost use Rattle.point_order.specs.declared.cell.Cell.{Cell};
    ghost use Rattle.cavity.specs.Tables.{IsMarked};

    ghost Value = { List Cell };

    ghost view = { λ j. j.goes.items };

    ghost invariant = { λ j. IsMarked j.mask j.marks.items j.goes.items };
}

// The cell with this number. Where the first one stands is looked up, since nobody said it.
fn at_hand(hold: &Hold, spot: &Spot, number: usize) -> Spot
    ensures { result ≡ spot.now }
{
    if number == 0 {
        hold.spot_of(spot.cell())
    } else {
        spot.copied()
    }
}

impl Judged {
    // One cell that goes.
    pub(crate) fn new(alloc: Global, cell: Spot) -> Result<Judged, AllocError>
        ensures { IfOk result (λ judged. judged ≡ cell ∷ []) }
    {
        let mut goes = Vec::with_capacity(alloc, USUAL)?;
        goes.push(cell)?;
        let marks = table_of(alloc, MASK, &goes)?;
        Ok(Judged {
            goes,
            marks,
            mask: MASK,
            beside: Vec::with_capacity(alloc, USUAL)?,
        })
    }

    // Whether the cell, which has this number, goes.
    pub(crate) fn has(&self, number: usize, cell: &Cell) -> bool
        requires { number ≡ cell_number cell.now }
        ensures { IsTrue result ↔ IsIn cell.now self.now }
    {
        let home = home_of(number, self.mask);
        is_marked(&self.marks, home, &self.goes, cell)
    }

    // Doubles the table where half of its homes may be taken.
    fn make_room(&mut self, alloc: Global) -> Result<(), AllocError>
        ensures { self.new ≡ self.old }
    {
        let homes = self.mask + 1;
        if self.goes.len() >= homes / 2 {
            let mask = self.mask + homes;
            self.marks = table_of(alloc, mask, &self.goes)?;
            self.mask = mask;
        }
        Ok(())
    }

    // Puts a cell that goes, which has this number, at the end of those.
    pub(crate) fn push(
        &mut self,
        alloc: Global,
        number: usize,
        cell: Spot,
    ) -> Result<(), AllocError>
        requires { number ≡ cell_number cell }
        ensures pushed { OnOk result (self.new ≡ self.old ++ cell ∷ []) }
        ensures refused { OnErr result (self.new ≡ self.old) }
    {
        self.make_room(alloc)?;
        self.goes.reserve(1)?;
        let home = home_of(number, self.mask);
        put(&mut self.marks, home, Mark::Gone(self.goes.len()))?;
        match self.goes.push(cell) {
            Ok(()) => Ok(()),
            Err(_) => unreachable!(),
        }
    }

    // Notes that the cell that goes and was found last lies beside the one with this number.
    pub(crate) fn note_beside(&mut self, number: usize)
        ensures { self.new ≡ self.old }
    {
        let _ = self.beside.push(number);
    }

    // Whether the cell with the number was found beside one that is on the facet.
    pub(crate) fn is_back(&self, number: usize, cell: &Cell, facet: &Facet) -> bool
        ensures { IsTrue result → IsBeside self.now cell.now facet.now }
    {
        match self.beside.get(number.wrapping_sub(1)) {
            Some(before) => self.is_beside(*before, cell, facet),
            None => false,
        }
    }

    // Whether another cell than this one has the number and is on the facet.
    fn is_beside(&self, number: usize, cell: &Cell, facet: &Facet) -> bool
        ensures { IsTrue result → IsBeside self.now cell.now facet.now }
    {
        match self.goes.get(number) {
            Some(other) => other.cell().is_on(facet) && !other.cell().is_same(cell),
            None => false,
        }
    }

    // The cell at a place of those that go, if there is one.
    pub(crate) fn get(&self, hold: &Hold, i: usize) -> Option<Spot>
        ensures cell { MatchOption result (IsPast self.now i) (λ cell. IsAtPlace self.now i cell) }
        ensures small { length self.now < 2 ^ 63 }
    {
        match self.goes.get(i) {
            Some(spot) => Some(at_hand(hold, spot, i)),
            None => None,
        }
    }

    // The cells that go.
    pub(crate) fn goes(&self) -> &[Spot]
        ensures { result.now ≡ self.now }
    {
        &self.goes
    }
}
