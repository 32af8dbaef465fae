//! The cells that come where a point is taken, found by wrapping the hole that the cells at it leave.
//!
//! The hole is bounded by the facets of these cells against the point. Behind each such facet, and behind each facet of
//! a cell that was found, lies one cell: that of the facet and the point of the link outside of whose sphere the others
//! lie. A facet that was met from both sides is done with. When none is left, all cells are found.

ghost use Rattle.std.specs.Prelude.{◌≡◌, [], ◌∷◌, IfOk, IfSome, OnOk, IsTrue};
ghost use Rattle.list_laws.specs.Lists.{AreDistinct};
ghost use Rattle.point_order.specs.Complex.{complex};
ghost use Rattle.point_order.specs.Facets.{facets_of};
ghost use Rattle.hole_laws.specs.Edits.{GoesFrom};
ghost use Rattle.gift_wrap.specs.Near.{AreTaken};
ghost use Rattle.gift_wrap.specs.Wraps.{CanWrap, IsHole, IsOuter, IsFacetIn, AreSidesOf, AreMet, IsPlaceOf, IsFacetOn};

use crate::apex::{apex_over, is_over};
use point_order::{Cell, Facet, Point, has_cell};
use sphere_ties::conflict;
use std::alloc::{AllocError, Global};

// Links with more points than these are not wrapped, nor holes with more cells.
const MOST_POINTS: usize = 256;

const MOST_CELLS: usize = 1024;

// Odd numbers that make one number of the three points of a facet.
const FIRST: u64 = 0x9E37_79B9_7F4A_7C15;

const SECOND: u64 = 0xC2B2_AE3D_27D4_EB4F;

const THIRD: u64 = 0x1656_67B1_9E37_79F9;

// A facet that was met from one side, and whether the next cell lies above it, where its orientation is positive.
#[derive(Clone, Copy)]
pub(crate) struct Side {
    facet: Facet,
    up: bool,
    number: u32,
}

// A number for the facet, which hardly another one has.
fn hash_of(facet: &Facet) -> u32 {
    match facet {
        Facet::Three(tri) => {
            let (a, b, c) = tri.corners();
            let (a, b, c) = (
                a.key().wrapping_mul(FIRST),
                b.key().wrapping_mul(SECOND),
                c.key().wrapping_mul(THIRD),
            );
            (a.wrapping_add(b).wrapping_add(c) >> 32) as u32
        }
        Facet::Two(_) => 0,
    }
}

impl Side {
    // The side of a facet.
    fn new(facet: Facet, up: bool) -> Side
        ensures { result.facet ≡ facet }
    {
        Side {
            facet,
            up,
            number: hash_of(&facet),
        }
    }
}

// Whether the point lies above a triple.
fn is_above(facet: &Facet, p: Point) -> bool {
    match facet {
        Facet::Three(tri) => {
            let (a, b, c) = tri.corners();
            is_over(a, b, c, p)
        }
        Facet::Two(_) => false,
    }
}

// A triple of the cell without v, if there is one.
fn triple_against(cell: &Cell, v: Point) -> Option<Facet>
    ensures { IfSome result (λ facet. IsOuter cell.now v facet) }
{
    let facets = cell.facets();
    for facet in &facets {
        if let Facet::Three(tri) = facet {
            if !tri.points().contains(&v) {
                return Some(*facet);
            }
        }
    }
    None
}

// The triples of the cells at v against it, with their inner sides; none where one of the cells is Open.
fn sides_of_hole(alloc: Global, star: &[Cell], v: Point) -> Result<Option<Vec<Side>>, AllocError>
    ensures { IfOk result (λ found. IfSome found (λ sides. AreSidesOf star.now v sides.items)) }
{
    let mut sides = Vec::with_capacity(alloc, star.len().saturating_mul(2))?;
    for cell in star {
        match triple_against(cell, v) {
            Some(facet) => {
                let up = is_above(&facet, v);
                sides.push(Side::new(facet, up))?;
            }
            None => return Ok(None),
        }
    }
    Ok(Some(sides))
}

// The points of a triple, in the order in which the side is above them.
fn turned(side: &Side) -> Option<(Point, Point, Point)>
    ensures { IfSome result (λ t. IsFacetOn side.now.facet t.0 t.1 t.2) }
{
    match side.facet {
        Facet::Three(tri) => {
            let (a, b, c) = tri.corners();
            if side.up {
                Some((a, b, c))
            } else {
                Some((a, c, b))
            }
        }
        Facet::Two(_) => None,
    }
}

// The cell of the complex of the points on a side, if v takes it away.
fn cell_on_side(points: &[Point], v: Point, side: &Side) -> Option<Cell>
    requires wraps { CanWrap points.now v }
    requires facet { IsFacetIn (complex points.now) side.now.facet }
    ensures { IfSome result (λ cell. GoesFrom points.now v cell) }
{
    let (a, b, c) = turned(side)?;
    let d = apex_over(points, a, b, c)?;
    let cell = Cell::full(a, b, c, d);
    if conflict(&cell, v, v) {
        Some(cell)
    } else {
        None
    }
}

// Whether the two are sides of one facet, which is a triple.
fn are_of_one(one: &Side, other: &Side) -> bool
    ensures { IsTrue result → one.now.facet ≡ other.now.facet }
{
    if one.number != other.number {
        return false;
    }
    match (&one.facet, &other.facet) {
        (Facet::Three(q), Facet::Three(r)) => q.is_same(r),
        _ => false,
    }
}

// The place of the other side of the facet, if there is one: mostly it is one of the last.
fn place_of_other(sides: &[Side], side: &Side) -> Option<usize>
    ensures { IfSome result (λ i. IsPlaceOf sides.now side.now.facet i) }
{
    for i in (0..sides.len()).rev() {
        if are_of_one(&sides[i], side) {
            return Some(i);
        }
    }
    None
}

// A facet is met: for the first time, or from its other side.
fn meet(sides: &mut Vec<Side>, side: Side) -> Result<(), AllocError>
    ensures { OnOk result (AreMet (side.facet ∷ []) sides.old.items sides.new.items) }
{
    match place_of_other(sides, &side) {
        Some(i) => {
            let _ = sides.swap_remove(i);
            Ok(())
        }
        None => {
            sides.push(side)?;
            Ok(())
        }
    }
}

// Whether the cell lies below its first facet.
fn is_below_first(cell: &Cell) -> bool {
    match cell {
        Cell::Full(quad) => {
            let (a, b, c, d) = quad.corners();
            is_over(a, b, c, d)
        }
        Cell::Open(_) => false,
    }
}

// The facets of a cell are met from its side. Below and above them in turn it lies.
fn meet_facets(sides: &mut Vec<Side>, cell: &Cell) -> Result<(), AllocError>
    requires { AreDistinct (facets_of cell.now) }
    ensures { OnOk result (AreMet (facets_of cell.now) sides.old.items sides.new.items) }
{
    let facets = cell.facets();
    let mut up = is_below_first(cell);
    for facet in &facets {
        meet(sides, Side::new(*facet, up))?;
        up = !up;
    }
    Ok(())
}

/// The cells that v takes away from the complex of the points near it, by wrapping the hole of the cells at v, in any
/// order. There may be no answer, and then the caller digs in that complex instead: mostly since a cell at v is Open,
/// or since there is too much to look at, past 256 points or 1,024 cells.
///
/// # Errors
/// Want of memory.
pub fn cells_wrapped(
    alloc: Global,
    points: &[Point],
    v: Point,
    star: &[Cell],
) -> Result<Option<Vec<Cell>>, AllocError>
    requires { IsHole points.now v star.now }
    ensures { IfOk result (λ found. IfSome found (λ cells. AreTaken points.now v cells.items)) }
{
    if points.len() > MOST_POINTS {
        return Ok(None);
    }
    let mut sides = match sides_of_hole(alloc, star, v)? {
        Some(sides) => sides,
        None => return Ok(None),
    };
    let mut cells = Vec::with_capacity(alloc, star.len())?;
    'wrap: while cells.len() < MOST_CELLS {
        let side = match sides.last() {
            Some(side) => *side,
            None => break,
        };
        let cell = match cell_on_side(points, v, &side) {
            Some(cell) => cell,
            None => return Ok(None),
        };
        if has_cell(&cells, &cell) {
            return Ok(None);
        }
        meet_facets(&mut sides, &cell)?;
        cells.push(cell)?;
    }
    if sides.is_empty() && !cells.is_empty() {
        Ok(Some(cells))
    } else {
        Ok(None)
    }
}
