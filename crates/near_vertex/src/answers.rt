//! The nearest point to each of a list of places.

ghost use Rattle.std.specs.Prelude.{ℕ, List, IfOk};
ghost use Rattle.cell_store.specs.Meshes.{IsWhole};
ghost use Rattle.cell_store.specs.Shares.{Shows, ShowsSome};
ghost use Rattle.nearest_points.specs.Points.{AreNear, IsNear};

use crate::walk::nearest;
use cell_store::Hold;
use nearest_points::Near;
use point_order::Point;
use std::alloc::{AllocError, Global};

// The answer to a query.
fn answer_to(hold: &Hold, q: Point) -> Near
    requires shown { ShowsSome hold.now }
    requires whole { IsWhole hold.now }
    ensures { (s : List ℕ) → Shows hold.now s → IsNear s q result }
{
    Near::at(q, nearest(hold, q))
}

/// The answer to each query, in their order. Every bucket is to be in hand.
///
/// # Errors
///
/// Want of memory.
pub fn nearest_to_each(
    alloc: Global,
    hold: &Hold,
    queries: &[Point],
) -> Result<Vec<Near>, AllocError>
    requires shown { ShowsSome hold.now }
    requires whole { IsWhole hold.now }
    ensures { IfOk result (λ nears. (s : List ℕ) → Shows hold.now s → AreNear s queries.now nears.items) }
{
    let mut nears = Vec::with_capacity(alloc, queries.len())?;
    for q in queries {
        nears.push(answer_to(hold, *q))?;
    }
    Ok(nears)
}
