//! The search for the next point of a walk, and for the first.

ghost use Rattle.std.specs.Prelude.{ℕ, List, IsSome, IfSome, MatchOption};
ghost use Rattle.point_order.specs.Sets.{IsIn};
ghost use Rattle.cell_store.specs.Buckets.{bucket_at};
ghost use Rattle.bucket_grid.specs.Grids.{bucket_of};
ghost use Rattle.cell_store.specs.Meshes.{IsWhole};
ghost use Rattle.cell_store.specs.Shares.{Shows, ShowsSome};
ghost use Rattle.cell_walk.specs.Turns.{IsFirstMissing};
ghost use Rattle.near_vertex.specs.Around.{IsFirstAround};
ghost use Rattle.near_vertex.specs.Turns.{HasNoPoint, IsLeastOfLowest, LeastIs};

use cell_store::Hold;
use nearest_points::{first_among, square_from};
use point_order::Point;

// How many points of a bucket are looked at for one that is near, on each side of its place in the order of keys.
const LOOKS: usize = 256;

// The first, as seen from q, of the points that share a cell with p. Its bucket is to be in hand.
pub(crate) fn first_around(hold: &Hold, q: Point, p: Point) -> Point
    requires { IsSome (bucket_at hold.now.places (bucket_of hold.now.grid p)) }
    ensures { (s : List ℕ) → Shows hold.now s → IsIn p s → IsFirstAround s q p result }
{
    let mut first = p;
    for cell in hold.cells_around(p) {
        first = first_among(q, first, cell.points());
    }
    first
}

// The least point of the lowest bucket in hand that has one.
pub(crate) fn lowest_point(hold: &Hold) -> Option<Point>
    ensures { MatchOption result (HasNoPoint hold.now) (IsLeastOfLowest hold.now) }
{
    let count = hold.grid().count();
    for b in 0..count {
        if let Some(p) = least_in(hold, b) {
            return Some(p);
        }
    }
    None
}

// The first bucket that is not in hand, from that of the place on and round. No bucket in hand has a point.
pub(crate) fn first_missing(hold: &Hold, q: Point) -> u32
    requires shown { ShowsSome hold.now }
    requires none { HasNoPoint hold.now }
    ensures { IsFirstMissing hold.now q result }
{
    let grid = hold.grid();
    let count = grid.count();
    let first = grid.bucket_of(q);
    for steps in 0..count {
        let b = (first + steps) % count;
        if !hold.has(b) {
            return b;
        }
    }
    unreachable!()
}

// The least point of a bucket, if it is in hand and has one.
fn least_in(hold: &Hold, b: u32) -> Option<Point>
    ensures { LeastIs hold.now b result }
{
    if !hold.has(b) {
        return None;
    }
    hold.bucket(b).points().first().copied()
}

// The place of the list at which the looks for a near point begin: that of q in the order of keys.
fn rank_of(points: &[Point], q: Point) -> usize {
    match points.binary_search(&q) {
        Ok(place) => place,
        Err(place) => place,
    }
}

// Whether the point lies farther from q along the first axis alone.
fn is_far(q: Point, p: Point, square: i64) -> bool {
    let gap = p.x() - q.x();
    gap.saturating_mul(gap) > square
}

// The nearest of a point of the list and some of those from a place on, or of those below it. Points that ascend go by
// their first coordinate first, so no more are looked at where one lies too far along that axis alone.
fn nearer(points: &[Point], q: Point, near: Point, place: usize, up: bool) -> Point
    requires { IsIn near points.now }
    ensures { IsIn result points.now }
{
    let mut near = near;
    let mut least = square_from(q, near);
    for look in 0..LOOKS {
        let at = if up {
            place.wrapping_add(look)
        } else {
            place.wrapping_sub(look + 1)
        };
        let Some(p) = points.get(at) else {
            return near;
        };
        if is_far(q, *p, least) {
            return near;
        }
        let square = square_from(q, *p);
        if square < least {
            least = square;
            near = *p;
        }
    }
    near
}

// A point of the list that lies near; none where it has none. Which ones are looked at only makes the walk short.
fn near_in(points: &[Point], q: Point) -> Option<Point>
    ensures { IfSome result (λ p. IsIn p points.now) }
{
    let first = *points.first()?;
    let place = rank_of(points, q);
    let above = nearer(points, q, first, place, true);
    Some(nearer(points, q, above, place, false))
}

// A point of the bucket that lies near, if it is in hand and has one.
fn near_in_bucket(hold: &Hold, b: u32, q: Point) -> Option<Point>
    ensures { (s : List ℕ) → Shows hold.now s → IfSome result (λ p. IsIn p s) }
{
    if !hold.has(b) {
        return None;
    }
    near_in(hold.bucket(b).points(), q)
}

// A point of the set, to begin with: one that lies near in the bucket of the place, or in the next one that has any.
pub(crate) fn some_point(hold: &Hold, q: Point) -> Point
    requires shown { ShowsSome hold.now }
    requires whole { IsWhole hold.now }
    ensures { (s : List ℕ) → Shows hold.now s → IsIn result s }
{
    let count = hold.grid().count();
    let first = hold.grid().bucket_of(q);
    for steps in 0..count {
        if let Some(p) = near_in_bucket(hold, (first + steps) % count, q) {
            return p;
        }
    }
    match lowest_point(hold) {
        Some(p) => p,
        None => unreachable!(),
    }
}
