//! Refills.

ghost use Rattle.std.specs.Prelude.{◌≡◌, IfOk, IsSome, List, length, ℕ};
ghost use Rattle.cell_store.specs.Buckets.{bucket_at};
ghost use Rattle.bucket_grid.specs.Grids.{bucket_of};
ghost use Rattle.cell_store.specs.Meshes.{AllInHand};
ghost use Rattle.cell_store.specs.Shares.{Shows};
ghost use Rattle.vertex_removal.specs.Turns.{ShowsWithPoint, RefillGives, RefillAsksBelow, AsksNothing};

use crate::near::{near_set, star_of};
use cavity::Fresh;
use cell_store::Hold;
use gift_wrap::cells_once;
use point_order::Point;
use star_refill::cells_coming;
use std::alloc::{AllocError, Global};
use std::marker::Model;

/// The search for the cells that go when a point is taken, and those that come.
///
/// Contracts see it as its point.
#[derive(Debug, Drop)]
pub struct Refill {
    point: Point,
}

impl Model for Refill {
    ghost use Rattle.std.specs.Prelude.{ℕ};

    ghost Value = { ℕ };

    ghost view = { λ r. r.point };
}

/// What a turn of a refill comes to.
#[derive(Debug, Drop)]
pub enum RefillTurn {
    /// The cells at the point, which go, and the cells that come. All buckets of their finite points are in hand.
    Done(Fresh),
    /// All buckets of the finite points of the cells at the point are in hand, and without the
    /// point no four points are independent.
    Flat,
    /// The bucket with this number is not in hand, and has a finite point of a cell at the point.
    Need(u32),
}

impl Refill {
    /// The refill for a point that is to be taken.
    ///
    /// # Errors
    /// Want of memory.
    pub fn start(_alloc: Global, v: Point) -> Result<Refill, AllocError>
        ensures { IfOk result (λ refill. refill ≡ v) }
    {
        Ok(Refill { point: v })
    }

    /// Looks over the buckets in hand, and answers what goes and comes, that the
    /// rest is flat, or which bucket is needed.
    ///
    /// The hold is to show a set with the point, whose bucket is to be in hand; the answer is right for each set that
    /// the hold shows. Between two turns buckets may come to the hold.
    ///
    /// # Errors
    /// Want of memory. The refill is then as before.
    pub fn advance(&mut self, alloc: Global, hold: &Hold) -> Result<RefillTurn, AllocError>
        requires shown { ShowsWithPoint hold.now self.old }
        requires held { IsSome (bucket_at hold.now.places (bucket_of hold.now.grid self.old)) }
        ensures point { self.new ≡ self.old }
        ensures turn { IfOk result (λ turn. (s : List ℕ) → Shows hold.now s → RefillGives hold.now s self.old turn) }
        ensures below { IfOk result (λ turn. RefillAsksBelow (length hold.now.places) turn) }
        ensures all { IfOk result (λ turn. AllInHand hold.now → AsksNothing turn) }
    {
        let v = self.point;
        let star = star_of(alloc, hold, v)?;
        if let Some(b) = hold.missing_bucket(&star) {
            return Ok(RefillTurn::Need(b));
        }
        let gone = cells_once(star);
        match near_set(alloc, hold, v, &gone)? {
            Some(near) => {
                let fresh = cells_coming(alloc, &near, v, &gone)?;
                Ok(RefillTurn::Done(Fresh { gone, fresh }))
            }
            None => Ok(RefillTurn::Flat),
        }
    }
}
