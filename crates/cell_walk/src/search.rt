//! The search for the first cell of a walk.

ghost use Rattle.std.specs.Prelude.{◌≡◌, ◌↔◌, ◌⊎◌, List, [], None, Some, IsTrue, IsSome, IfSome, MatchBool};
ghost use Rattle.std.specs.Prelude.{MatchOption};
ghost use Rattle.std.specs.declared.cmp.Ordering.TheVariants.{Less};
ghost use Rattle.point_order.specs.CellOrder.{cell_cmp};
ghost use Rattle.point_order.specs.Sets.{IsIn};
ghost use Rattle.cell_store.specs.Buckets.{bucket_at, cells_in};
ghost use Rattle.cell_walk.specs.Searching.{IsInside, IsFitting, IsLessened, IsLeastFitting};
ghost use Rattle.cell_store.specs.Shares.{ShowsSome};
ghost use Rattle.cell_walk.specs.Turns.{HasNoCell, IsFirstMissing};

use cell_store::Hold;
use point_order::{Cell, Point, Step};
use std::cmp::Ordering;

// How many points of a bucket are looked at for one that is near: around the place of the point, and at even distances.
const AROUND: usize = 32;

const SPREAD: usize = 16;

// The nearest of the point that was nearest so far, and some points of the list from a place on, at even distances.
fn nearest_of(
    points: &[Point],
    p: Point,
    so_far: Point,
    first: usize,
    stride: usize,
    looks: usize,
) -> Point
    ensures { (result ≡ so_far) ⊎ IsIn result points.now }
{
    let mut near = so_far;
    let mut least = Step::between(p, near).square();
    let mut place = first;
    for _ in 0..looks {
        if let Some(q) = points.get(place) {
            let square = Step::between(p, *q).square();
            if square < least {
                least = square;
                near = *q;
            }
        }
        place = place.saturating_add(stride);
    }
    near
}

// The nearest of some points of the list; none where it has none. Which ones are looked at only makes the walk short.
// The list ascends by x first, so that those around the place of the point are near it in x; where all have one x or
// lie in steps of it, those at even distances are nearer.
pub(crate) fn near_point(points: &[Point], p: Point) -> Option<Point>
    ensures { MatchOption result (points.now ≡ []) (λ q. IsIn q points.now) }
{
    let first = *points.first()?;
    let place = match points.binary_search(&p) {
        Ok(i) | Err(i) => i,
    };
    let spread = nearest_of(points, p, first, 0, points.len() / SPREAD + 1, SPREAD);
    Some(nearest_of(
        points,
        p,
        spread,
        place.saturating_sub(AROUND / 2),
        1,
        AROUND,
    ))
}

// Whether the cell is Full, and the buckets of all its points are in hand.
fn is_inside(hold: &Hold, cell: &Cell) -> bool
    ensures { IsTrue result ↔ IsInside hold.now cell.now }
{
    match cell {
        Cell::Full(_) => hold.missing_bucket(&[*cell]).is_none(),
        Cell::Open(_) => false,
    }
}

// Whether the search looks for the cell.
fn fits(hold: &Hold, inside: bool, cell: &Cell) -> bool
    ensures { MatchBool result (IsFitting hold.now inside cell.now) (IsFitting hold.now inside cell.now → ⊥) }
{
    if inside { is_inside(hold, cell) } else { true }
}

// The lesser of the least cell so far, if there is one, and another cell.
fn lesser(best: Option<Cell>, cell: &Cell) -> Cell
    ensures one { (best ≡ Some result) ⊎ (cell.now ≡ result) }
    ensures best { IfSome best (λ b. ¬ (cell_cmp b result ≡ Less)) }
    ensures cell { ¬ (cell_cmp cell.now result ≡ Less) }
{
    match best {
        Some(old) => match cell.compare(&old) {
            Ordering::Less => *cell,
            _ => old,
        },
        None => *cell,
    }
}

// The least of the least cell so far and the cells of a bucket, of those inside or of all.
fn least_in(hold: &Hold, b: u32, inside: bool, least: Option<Cell>) -> Option<Cell>
    requires { IsSome (bucket_at hold.now.places b) }
    ensures { IsLessened hold.now inside (cells_in hold.now.places b) least result }
{
    let mut best = least;
    for cell in hold.bucket(b).cells() {
        if fits(hold, inside, cell) {
            best = Some(lesser(best, cell));
        }
    }
    best
}

// The least of the cells of the buckets in hand, of those inside or of all.
pub(crate) fn least_cell(hold: &Hold, inside: bool) -> Option<Cell>
    ensures { IsLeastFitting hold.now inside result }
{
    let count = hold.grid().count();
    let mut best = None;
    for b in 0..count {
        if hold.has(b) {
            best = least_in(hold, b, inside, best);
        }
    }
    best
}

// The first bucket that is not in hand, from that of the point on and round. No bucket in hand has a cell.
pub(crate) fn first_missing(hold: &Hold, p: Point) -> u32
    requires stands { ShowsSome hold.now }
    requires none { HasNoCell hold.now }
    ensures { IsFirstMissing hold.now p result }
{
    let grid = hold.grid();
    let count = grid.count();
    let first = grid.bucket_of(p);
    for steps in 0..count {
        let b = (first + steps) % count;
        if !hold.has(b) {
            return b;
        }
    }
    unreachable!()
}
