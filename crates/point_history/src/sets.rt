//! The points of a list as a set.

ghost use Rattle.std.specs.Prelude.{◌≡◌, IfOk};
ghost use Rattle.point_order.specs.Sets.{IsAscending, ascending};

use point_order::{Point, points_in_order};
use std::alloc::{AllocError, Global};

/// The points of a list, ascending and each once.
///
/// # Errors
/// Want of memory.
pub fn set_of(alloc: Global, list: &[Point]) -> Result<Vec<Point>, AllocError>
    ensures set { IfOk result (λ points. points.items ≡ ascending list.now) }
    ensures ascending { IfOk result (λ points. IsAscending points.items) }
{
    Ok(points_in_order(Vec::from_slice(alloc, list)?))
}
