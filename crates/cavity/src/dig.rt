//! Digs.

ghost use Rattle.std.specs.Prelude.{◌≡◌, ℕ, [], ◌∷◌, IfOk, OnOk, List, length, take};
ghost use Rattle.cell_store.specs.Shares.{Shows};
ghost use Rattle.cell_store.specs.Meshes.{AllInHand};
ghost use Rattle.cavity.specs.Digs.{CanDig, IsDigIn};
ghost use Rattle.cavity.specs.Turns.{ShowsDig, TurnGives, AsksBelow};

use crate::explore::explore;
use crate::judged::Judged;
use cell_store::{Hold, Spot};
use point_order::{Cell, Facet, Point};
use std::alloc::{AllocError, Global};
use std::fmt::{self, Debug, Formatter};
use std::marker::Model;

// As many rim facets as a dig mostly meets at the most: room for them is made at once.
const RIM: usize = 64;

/// The search for the cells that a new point takes away.
///
/// Contracts see it as a plain record: its point, the cells found, how many of them were explored, and the
/// facets of these behind which a cell stays.
#[derive(Drop)]
pub struct Dig {
    point: Point,
    judged: Judged,
    explored: usize,
    rim: Vec<Facet>,
}

impl Debug for Dig {
    fn fmt<W: fmt::Write>(&self, f: &mut Formatter<W>) -> fmt::Result {
        f.debug_struct("Dig").finish_non_exhaustive()
    }
}

impl Model for Dig {
    ghost use Rattle.cavity.specs.Digs.{Digging};

    ghost Value = { Digging };

    ghost view = { λ d. record { point = d.point; found = d.judged; explored = d.explored; rim = d.rim.items } };
}

/// What a turn of a dig comes to.
#[derive(Clone, Copy, Debug, PartialEq, Eq)]
pub enum DigTurn {
    /// All cells are found, and all buckets of their finite points are in hand.
    Done,
    /// The bucket with this number is not in hand, and has a finite point of a cell that the new point takes away.
    Need(u32),
}

impl Dig {
    /// The dig for a new point that begins in a cell that the point takes away.
    ///
    /// # Errors
    /// Want of memory.
    pub fn start(alloc: Global, p: Point, cell: Cell) -> Result<Dig, AllocError>
        ensures begun { IfOk result (λ dig. dig ≡ record { point = p; found = cell ∷ []; explored = 0; rim = [] }) }
        ensures digs { IfOk result (λ dig. (s : List ℕ) → CanDig s p cell → IsDigIn s dig) }
    {
        let _ = p.key();
        Ok(Dig {
            point: p,
            judged: Judged::new(alloc, Spot::new(cell, 0, 0))?,
            explored: 0,
            rim: Vec::with_capacity(alloc, RIM)?,
        })
    }

    /// Looks on over the buckets in hand, until all cells are found or a bucket is needed.
    ///
    /// The hold is to show a set in which this is a dig; the answer is right for each such set. Between
    /// two turns buckets may come to the hold.
    ///
    /// # Errors
    /// Want of memory. The dig may then only be dropped.
    pub fn advance(&mut self, alloc: Global, hold: &Hold) -> Result<DigTurn, AllocError>
        requires { ShowsDig hold.now self.old }
        ensures point { OnOk result (self.new.point ≡ self.old.point) }
        ensures digs { OnOk result ((s : List ℕ) → Shows hold.now s → IsDigIn s self.old → IsDigIn s self.new) }
        ensures turn { IfOk result (λ turn. (s : List ℕ) → Shows hold.now s → IsDigIn s self.old →
            TurnGives hold.now s self.new turn) }
        ensures below { IfOk result (λ turn. AsksBelow (length hold.now.places) turn) }
        ensures all { IfOk result (λ turn. AllInHand hold.now → turn ≡ DigTurn.Done) }
    {
        if let Some(b) = hold.missing_bucket_of_spots(self.explored()) {
            return Ok(DigTurn::Need(b));
        }
        while let Some(cell) = self.judged.get(hold, self.explored) {
            if let Some(b) = hold.missing_bucket_of_points(cell.cell().points()) {
                return Ok(DigTurn::Need(b));
            }
            explore(
                alloc,
                self.point,
                hold,
                self.explored,
                &cell,
                &mut self.judged,
                &mut self.rim,
            )?;
            self.explored += 1;
        }
        Ok(DigTurn::Done)
    }

    // The cells that were explored.
    fn explored(&self) -> &[Spot]
        ensures { result.now ≡ take self.now.explored self.now.found }
    {
        let found = self.judged.goes();
        if self.explored < found.len() {
            &found[..self.explored]
        } else {
            found
        }
    }

    // The point of the dig.
    pub(crate) fn point(&self) -> Point
        ensures { result ≡ self.now.point }
    {
        self.point
    }

    // The cells that were found.
    pub(crate) fn found(&self) -> &[Spot]
        ensures { result.now ≡ self.now.found }
    {
        self.judged.goes()
    }

    // The rim facets of those explored.
    pub(crate) fn rim(&self) -> &[Facet]
        ensures { result.now ≡ self.now.rim }
    {
        &self.rim
    }
}
