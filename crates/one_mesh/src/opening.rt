//! The four points with which the mesh of a list of points begins.

ghost use Rattle.std.specs.Prelude.{◌≡◌, ◌↔◌, ◌<◌, ◌≤◌, ◌^◌, false, Some, length, slice_index, option_map, IfOk, IsErr};
ghost use Rattle.point_order.specs.Solid.{is_solid};
ghost use Rattle.edit_history.specs.Opening.{opening_four};
ghost use Rattle.opening_entries.specs.Opening.{AreFourIndependent};
ghost use Rattle.one_mesh.specs.Opened.{tagged_at};

use edit_history::{NotSolid, find_four};
use point_order::Point;

// The point at a place, with the place for a tag.
fn tagged_point(points: &[Point], i: usize) -> (u32, Point)
    requires place { i < length points.now }
    requires small { i < 2 ^ 32 }
    ensures { result ≡ (i, slice_index points.now i) }
{
    (i as u32, points[i])
}

/// The opening four of the points, as `begin` takes them: the first point; the first after it that differs from it; the
/// first after that off the line of the two; the first after that off the plane of the three. Each has its place in the
/// list for a tag. It takes no memory.
///
/// There are to be at most 2^32 points.
///
/// # Errors
/// `NotSolid` where no four of the points are independent.
pub fn opening_points(points: &[Point]) -> Result<[(u32, Point); 4], NotSolid>
    requires { length points.now ≤ 2 ^ 32 }
    ensures four { IfOk result (λ four. option_map (tagged_at points.now) (opening_four points.now) ≡ Some four) }
    ensures independent { IfOk result AreFourIndependent }
    ensures refused { IsErr result ↔ (is_solid points.now ≡ false) }
{
    let four = find_four(points)?;
    Ok([
        tagged_point(points, four[0]),
        tagged_point(points, four[1]),
        tagged_point(points, four[2]),
        tagged_point(points, four[3]),
    ])
}
