//! Which buckets are missing.

ghost use Rattle.std.specs.Prelude.{MatchOption};
ghost use Rattle.cell_store.specs.Missing.{ArePointsHeld, IsBucketMissing, IsCellMissing};
ghost use Rattle.cell_store.specs.Ready.{AreHeld};

use crate::hold::Hold;
use crate::spot::Spot;
use point_order::{Cell, Point};

impl Hold {
    /// The bucket of one of the points that is not in hand, if there is one.
    pub fn missing_bucket_of_points(&self, points: &[Point]) -> Option<u32>
        ensures { MatchOption result (ArePointsHeld self.now points.now)
            (λ b. IsBucketMissing self.now points.now b) }
    {
        let grid = self.grid();
        for p in points {
            let b = grid.bucket_of(*p);
            if !self.has(b) {
                return Some(b);
            }
        }
        None
    }

    /// The bucket of a finite point of one of the cells that is not in hand, if there is one.
    pub fn missing_bucket(&self, cells: &[Cell]) -> Option<u32>
        ensures { MatchOption result (AreHeld self.now cells.now) (λ b. IsCellMissing self.now cells.now b) }
    {
        for cell in cells {
            if let Some(b) = self.missing_bucket_of_points(cell.points()) {
                return Some(b);
            }
        }
        None
    }

    /// The same for cells at hand.
    pub fn missing_bucket_of_spots(&self, spots: &[Spot]) -> Option<u32>
        ensures { MatchOption result (AreHeld self.now spots.now) (λ b. IsCellMissing self.now spots.now b) }
    {
        for spot in spots {
            if let Some(b) = self.missing_bucket_of_points(spot.cell().points()) {
                return Some(b);
            }
        }
        None
    }
}
