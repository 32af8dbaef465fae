//! Cells and facets, kept with their points in ascending order.

ghost use Rattle.std.specs.Prelude.{◌≡◌, ◌≢◌, ◌<◌, ◌↔◌, ℕ, List, [], ◌∷◌, ◌⊎◌, length, IsTrue};
ghost use Rattle.point_order.specs.CellOrder.{cell_cmp};
ghost use Rattle.point_order.specs.Facets.{facets_of, points_of, points_on};
ghost use Rattle.point_order.specs.Subsets.{subsets};
ghost use Rattle.point_order.specs.Sets.{IsAscending, AreThree, AreFour, IsIn, is_among, ascending};
ghost use Rattle.point_order.specs.declared.cell.Cell.{Cell};
ghost use Rattle.point_order.specs.declared.cell.Cell.TheVariants.{Full, Open};

use crate::point::Point;
use std::cmp::Ordering;
use std::marker::Model;

/// Two points in ascending order.
#[derive(Clone, Copy, Debug, PartialEq, Eq, PartialOrd, Ord, Hash)]
pub struct Pair {
    points: [Point; 2],
}

impl Model for Pair {
    ghost use Rattle.std.specs.Prelude.{List, ℕ};
    ghost use Rattle.point_order.specs.Sets.{IsAscending};

    ghost Value = { List ℕ };

    ghost view = { λ q. q.points };

    ghost invariant = { λ q. IsAscending q.points };

    ghost inverse = { λ l. record { points = l } };
}

/// Three points in ascending order.
#[derive(Clone, Copy, Debug, PartialEq, Eq, PartialOrd, Ord, Hash)]
pub struct Tri {
    points: [Point; 3],
}

impl Model for Tri {
    ghost use Rattle.std.specs.Prelude.{List, ℕ};
    ghost use Rattle.point_order.specs.Sets.{IsAscending};

    ghost Value = { List ℕ };

    ghost view = { λ q. q.points };

    ghost invariant = { λ q. IsAscending q.points };

    ghost inverse = { λ l. record { points = l } };
}

/// Four points in ascending order.
#[derive(Clone, Copy, Debug, PartialEq, Eq, PartialOrd, Ord, Hash)]
pub struct Quad {
    points: [Point; 4],
}

impl Model for Quad {
    ghost use Rattle.std.specs.Prelude.{List, ℕ};
    ghost use Rattle.point_order.specs.Sets.{IsAscending};

    ghost Value = { List ℕ };

    ghost view = { λ q. q.points };

    ghost invariant = { λ q. IsAscending q.points };

    ghost inverse = { λ l. record { points = l } };
}

/// A cell of a complex: four points, or three points and the infinite vertex.
///
/// Full cells come before Open ones, and each kind is in lexicographic order.
#[derive(Clone, Copy, Debug, PartialEq, Eq, PartialOrd, Ord, Hash)]
pub enum Cell {
    /// A tetrahedron.
    Full(Quad),
    /// A triangle of the hull, with the infinite vertex.
    Open(Tri),
}

/// A side that a cell shares with another: three points, or two points and the infinite vertex.
#[derive(Clone, Copy, Debug, PartialEq, Eq, PartialOrd, Ord, Hash)]
pub enum Facet {
    Three(Tri),
    Two(Pair),
}

impl Pair {
    /// The two points, ascending.
    pub fn points(&self) -> &[Point]
        ensures points { result.now ≡ self.now }
        ensures ascending { IsAscending result.now }
    {
        &self.points
    }

    /// The two points by themselves, ascending.
    pub fn corners(self) -> (Point, Point)
        ensures points { self ≡ result.0 ∷ result.1 ∷ [] }
        ensures order { result.0 < result.1 }
    {
        let [a, b] = self.points;
        (a, b)
    }

    /// Whether the two are one pair.
    pub fn is_same(&self, other: &Pair) -> bool
        ensures { IsTrue result ↔ (self.now ≡ other.now) }
    {
        let [a, b] = self.points;
        let [x, y] = other.points;
        a == x && b == y
    }
}

impl Tri {
    /// The three points, ascending.
    pub fn points(&self) -> &[Point]
        ensures points { result.now ≡ self.now }
        ensures ascending { IsAscending result.now }
    {
        &self.points
    }

    /// The three points by themselves, ascending.
    pub fn corners(self) -> (Point, Point, Point)
        ensures points { self ≡ result.0 ∷ result.1 ∷ result.2 ∷ [] }
        ensures first { result.0 < result.1 }
        ensures second { result.1 < result.2 }
    {
        let [a, b, c] = self.points;
        (a, b, c)
    }

    /// Whether the two are one triple. The points that mostly differ are compared first.
    pub fn is_same(&self, other: &Tri) -> bool
        ensures { IsTrue result ↔ (self.now ≡ other.now) }
    {
        let [a, b, c] = self.points;
        let [x, y, z] = other.points;
        b == y && a == x && c == z
    }

    /// The pairs of its points, in lexicographic order.
    pub fn pairs(self) -> [Pair; 3]
        ensures { result ≡ subsets 2 self }
    {
        let [a, b, c] = self.points;
        [
            Pair { points: [a, b] },
            Pair { points: [a, c] },
            Pair { points: [b, c] },
        ]
    }
}

impl Quad {
    /// The four points, ascending.
    pub fn points(&self) -> &[Point]
        ensures points { result.now ≡ self.now }
        ensures ascending { IsAscending result.now }
    {
        &self.points
    }

    /// The four points by themselves, ascending.
    pub fn corners(self) -> (Point, Point, Point, Point)
        ensures points { self ≡ result.0 ∷ result.1 ∷ result.2 ∷ result.3 ∷ [] }
        ensures first { result.0 < result.1 }
        ensures second { result.1 < result.2 }
        ensures third { result.2 < result.3 }
    {
        let [a, b, c, d] = self.points;
        (a, b, c, d)
    }

    /// Whether the two are one quadruple. The points that mostly differ are compared first.
    pub fn is_same(&self, other: &Quad) -> bool
        ensures { IsTrue result ↔ (self.now ≡ other.now) }
    {
        let [a, b, c, d] = self.points;
        let [x, y, z, w] = other.points;
        b == y && c == z && a == x && d == w
    }

    /// The pairs of its points, in lexicographic order.
    pub fn pairs(self) -> [Pair; 6]
        ensures { result ≡ subsets 2 self }
    {
        let [a, b, c, d] = self.points;
        [
            Pair { points: [a, b] },
            Pair { points: [a, c] },
            Pair { points: [a, d] },
            Pair { points: [b, c] },
            Pair { points: [b, d] },
            Pair { points: [c, d] },
        ]
    }

    /// The triples of its points, in lexicographic order.
    pub fn triples(self) -> [Tri; 4]
        ensures { result ≡ subsets 3 self }
    {
        let [a, b, c, d] = self.points;
        [
            Tri { points: [a, b, c] },
            Tri { points: [a, b, d] },
            Tri { points: [a, c, d] },
            Tri { points: [b, c, d] },
        ]
    }
}

impl Facet {
    /// Its finite points, ascending.
    pub fn points(&self) -> &[Point]
        ensures points { result.now ≡ points_on self.now }
        ensures ascending { IsAscending result.now }
    {
        match self {
            Facet::Three(tri) => &tri.points,
            Facet::Two(pair) => &pair.points,
        }
    }

    /// Whether the two are one facet.
    pub fn is_same(&self, other: &Facet) -> bool
        ensures { IsTrue result ↔ (self.now ≡ other.now) }
    {
        match (self, other) {
            (Facet::Three(f), Facet::Three(g)) => f.is_same(g),
            (Facet::Two(f), Facet::Two(g)) => f.is_same(g),
            _ => false,
        }
    }
}

// The two in order.
fn in_order(a: Point, b: Point) -> (Point, Point)
    requires { a ≢ b }
    ensures order { result.0 < result.1 }
    ensures same { ((result.0 ≡ a) × (result.1 ≡ b)) ⊎ ((result.0 ≡ b) × (result.1 ≡ a)) }
{
    if a < b { (a, b) } else { (b, a) }
}

// Three points, put in order.
fn ordered_three(a: Point, b: Point, c: Point) -> Tri
    requires { AreThree a b c }
    ensures order { IsAscending result }
    ensures points { (p : ℕ) → IsIn p result ↔ IsIn p (a ∷ b ∷ c ∷ []) }
{
    let (a, b) = in_order(a, b);
    let (b, c) = in_order(b, c);
    let (a, b) = in_order(a, b);
    Tri { points: [a, b, c] }
}

// Four points, put in order.
fn ordered_four(a: Point, b: Point, c: Point, d: Point) -> Quad
    requires { AreFour a b c d }
    ensures order { IsAscending result }
    ensures points { (p : ℕ) → IsIn p result ↔ IsIn p (a ∷ b ∷ c ∷ d ∷ []) }
{
    let (a, b) = in_order(a, b);
    let (c, d) = in_order(c, d);
    let (a, c) = in_order(a, c);
    let (b, d) = in_order(b, d);
    let (b, c) = in_order(b, c);
    Quad {
        points: [a, b, c, d],
    }
}

impl Cell {
    /// The Full cell of four distinct points, given in any order.
    pub fn full(a: Point, b: Point, c: Point, d: Point) -> Cell
        requires { AreFour a b c d }
        ensures { result ≡ Full (ascending (a ∷ b ∷ c ∷ d ∷ [])) }
    {
        Cell::Full(ordered_four(a, b, c, d))
    }

    /// The Open cell of three distinct points, given in any order.
    pub fn hull(a: Point, b: Point, c: Point) -> Cell
        requires { AreThree a b c }
        ensures { result ≡ Open (ascending (a ∷ b ∷ c ∷ [])) }
    {
        Cell::Open(ordered_three(a, b, c))
    }

    /// The four facets. Facet `i` of a Full cell lacks its point `i`; of an Open cell the facets 0 to 2 are the pairs
    /// without a point, each with the infinite vertex, and facet 3 is the triple.
    pub fn facets(&self) -> [Facet; 4]
        ensures { result ≡ facets_of self.now }
    {
        match self {
            Cell::Full(quad) => {
                let [a, b, c, d] = quad.points;
                [
                    Facet::Three(Tri { points: [b, c, d] }),
                    Facet::Three(Tri { points: [a, c, d] }),
                    Facet::Three(Tri { points: [a, b, d] }),
                    Facet::Three(Tri { points: [a, b, c] }),
                ]
            }
            Cell::Open(tri) => {
                let [a, b, c] = tri.points;
                [
                    Facet::Two(Pair { points: [b, c] }),
                    Facet::Two(Pair { points: [a, c] }),
                    Facet::Two(Pair { points: [a, b] }),
                    Facet::Three(Tri { points: [a, b, c] }),
                ]
            }
        }
    }

    /// How the cell stands to another in the order of cells: Full cells come before Open ones, and each kind is in
    /// lexicographic order. It is what `cmp` answers, with the order told by name.
    pub fn compare(&self, other: &Cell) -> Ordering
        ensures { result ≡ cell_cmp self.now other.now }
    {
        self.cmp(other)
    }

    /// Whether the two are one cell. It is what `==` answers; cells that differ mostly do in the points that are
    /// compared first.
    pub fn is_same(&self, other: &Cell) -> bool
        ensures { IsTrue result ↔ (self.now ≡ other.now) }
    {
        match (self, other) {
            (Cell::Full(q), Cell::Full(r)) => q.is_same(r),
            (Cell::Open(q), Cell::Open(r)) => q.is_same(r),
            _ => false,
        }
    }

    /// Whether the point is one of the cell's.
    pub fn has(&self, p: Point) -> bool
        ensures { result ≡ is_among p (points_of self.now) }
    {
        self.points().contains(&p)
    }

    /// The finite points, ascending.
    pub fn points(&self) -> &[Point]
        ensures points { result.now ≡ points_of self.now }
        ensures ascending { IsAscending result.now }
    {
        match self {
            Cell::Full(quad) => &quad.points,
            Cell::Open(tri) => &tri.points,
        }
    }
}
