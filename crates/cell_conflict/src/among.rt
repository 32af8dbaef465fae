//! The look through one bucket for a cell in conflict.

ghost use Rattle.std.specs.Prelude.{List, MatchOption, IsSome, IfSome, ℕ};
ghost use Rattle.point_order.specs.Sets.{IsIn};
ghost use Rattle.hole_laws.specs.Edits.{IsNew, GoesFrom};
ghost use Rattle.cell_store.specs.Buckets.{bucket_at, cells_in};
ghost use Rattle.cell_store.specs.Shares.{Shows};
ghost use Rattle.cell_conflict.specs.Searching.{ShowsNew, NoneGoes};

use crate::judge::is_in_conflict;
use cell_store::Hold;
use point_order::{Cell, Point};

/// A cell of the bucket with the number that the new point takes away, if there is one. The bucket is to be in
/// hand, and the hold to show a set for which the point is new; the answer is right for each such set.
pub fn conflict_among(hold: &Hold, b: u32, p: Point) -> Option<Cell>
    requires shown { ShowsNew hold.now p }
    requires held { IsSome (bucket_at hold.now.places b) }
    ensures among { IfSome result (λ c. IsIn c (cells_in hold.now.places b)) }
    ensures goes { (s : List ℕ) → Shows hold.now s → IsNew s p →
        MatchOption result (NoneGoes s p (cells_in hold.now.places b)) (λ c. GoesFrom s p c) }
{
    for cell in hold.bucket(b).cells() {
        if is_in_conflict(hold, cell, p) {
            return Some(*cell);
        }
    }
    None
}
