//! The cells that come where a point is taken, told from the cells at it and around it alone.

ghost use Rattle.std.specs.Prelude.{◌≡◌, false, IfOk, List, MatchOption, ℕ};
ghost use Rattle.list_laws.specs.Lists.{AreDistinct};
ghost use Rattle.point_order.specs.Sets.{without_point};
ghost use Rattle.point_order.specs.Solid.{is_solid as is_solid_of};
ghost use Rattle.gift_wrap.specs.Near.{AreTaken};
ghost use Rattle.gift_wrap.specs.Wraps.{IsHole};
ghost use Rattle.star_refill.specs.Coming.{AreAround, AreAroundInSome, HaveAllAcross};
ghost use Rattle.cell_changes.specs.Changes.{IsRefilled};

use edit_history::find_four;
use gift_wrap::{cells_wrapped, points_but};
use net_digs::cells_taken;
use point_order::{Cell, Point};
use std::alloc::{AllocError, Global};

/// Whether four of the points are independent.
pub fn is_solid(points: &[Point]) -> bool
    ensures { result ≡ is_solid_of points.now }
{
    find_four(points).is_ok()
}

/// The cells that `v` takes away from the complex of the points near it, each once, in any order: by wrapping the hole,
/// or by digging in that complex.
///
/// The points are those of a solid set between the link of `v` and the rest, and the star is that of `v`.
///
/// # Errors
/// Want of memory.
pub fn cells_coming(
    alloc: Global,
    points: &[Point],
    v: Point,
    star: &[Cell],
) -> Result<Vec<Cell>, AllocError>
    requires { IsHole points.now v star.now }
    ensures { IfOk result (λ cells. AreTaken points.now v cells.items) }
{
    match cells_wrapped(alloc, points, v, star)? {
        Some(cells) => Ok(cells),
        None => Ok(cells_taken(alloc, points, v)?),
    }
}

/// The cells that come in place of those at `v`, each once, in any order. There are none where the points of the cells
/// around, without `v`, lie in one plane; where these are all points across from `v` too, the rest of the set does.
///
/// The star is that of `v` in some set, each cell once, and around are cells of that set, with the star among them; the
/// answer is right for each such set. With the star alone around it mostly finds the cells.
///
/// # Errors
/// Want of memory.
pub fn cells_for_star(
    alloc: Global,
    v: Point,
    star: &[Cell],
    around: &[Cell],
) -> Result<Option<Vec<Cell>>, AllocError>
    requires once { AreDistinct star.now }
    requires around { AreAroundInSome v star.now around.now }
    ensures { IfOk result (λ found. (s : List ℕ) → AreAround s v star.now around.now →
        MatchOption found (HaveAllAcross s v around.now → is_solid_of (without_point v s) ≡ false)
        (λ cells. IsRefilled s v star.now cells.items)) }
{
    let near = points_but(alloc, around, v)?;
    if !is_solid(&near) {
        return Ok(None);
    }
    let cells = cells_coming(alloc, &near, v, star)?;
    Ok(Some(cells))
}
