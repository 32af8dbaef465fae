//! Whether a cell is on a facet.

ghost use Rattle.std.specs.Prelude.{◌↔◌, IsTrue};
ghost use Rattle.point_order.specs.Facets.{facets_of};
ghost use Rattle.point_order.specs.Sets.{IsIn};
ghost use Rattle.point_order.specs.declared.cell.Cell.TheVariants.{Full, Open};
ghost use Rattle.point_order.specs.declared.cell.Facet.TheVariants.{Three, Two};

use crate::cell::{Cell, Facet, Pair, Quad, Tri};

// Whether the triple is one of a Full cell's four.
fn has_triple(quad: &Quad, tri: &Tri) -> bool
    ensures { IsTrue result ↔ IsIn (Three tri.now) (facets_of (Full quad.now)) }
{
    let (a, b, c, d) = quad.corners();
    let (x, y, z) = tri.corners();
    if a == x {
        if b == y {
            c == z || d == z
        } else {
            c == y && d == z
        }
    } else {
        b == x && c == y && d == z
    }
}

// Whether the pair is one of an Open cell's three.
fn has_pair(tri: &Tri, pair: &Pair) -> bool
    ensures { IsTrue result ↔ IsIn (Two pair.now) (facets_of (Open tri.now)) }
{
    let (a, b, c) = tri.corners();
    let (x, y) = pair.corners();
    if a == x {
        b == y || c == y
    } else {
        b == x && c == y
    }
}

// Whether the triple is an Open cell's.
fn is_triple(tri: &Tri, other: &Tri) -> bool
    ensures { IsTrue result ↔ IsIn (Three other.now) (facets_of (Open tri.now)) }
{
    let (a, b, c) = tri.corners();
    let (x, y, z) = other.corners();
    a == x && b == y && c == z
}

impl Cell {
    /// Whether the cell is on the facet: whether this is one of its four.
    pub fn is_on(&self, facet: &Facet) -> bool
        ensures { IsTrue result ↔ IsIn facet.now (facets_of self.now) }
    {
        match (self, facet) {
            (Cell::Full(quad), Facet::Three(tri)) => has_triple(quad, tri),
            (Cell::Full(_), Facet::Two(_)) => false,
            (Cell::Open(tri), Facet::Three(other)) => is_triple(tri, other),
            (Cell::Open(tri), Facet::Two(pair)) => has_pair(tri, pair),
        }
    }
}
