//! Cells and facets as the keys of their points.

ghost use Rattle.std.specs.Prelude.{◌≡◌, ◌↔◌, ◌<◌, ◌≤◌, ◌⊎◌, List, MatchOption, IsTrue, Some, ℕ};
ghost use Rattle.point_order.specs.Conflicts.{CanJudge, is_in_conflict};
ghost use Rattle.point_order.specs.Coordinates.{IsKey};
ghost use Rattle.point_order.specs.Facets.{facets_of, points_of, points_on};
ghost use Rattle.point_order.specs.Sets.{IsIn, is_among};
ghost use Rattle.point_order.specs.declared.cell.Cell.TheVariants.{Full, Open};
ghost use Rattle.hole_laws.specs.Digs.{IsFacetApart};
ghost use Rattle.hole_laws.specs.Lists.{cell_over};
ghost use Rattle.cell_slots.specs.Corners.{AreFaceKeys, facet_of};
ghost use Rattle.cell_slots.specs.Nets.{IsOtherOn};

use point_order::{Cell, Facet, Point, Tri};
use sphere_ties::{conflict, outside};
use std::marker::Model;

/// Above the key of every point: 2^42. In the last place it stands for the infinite vertex.
pub const INFINITE: u64 = 4_398_046_511_104;

/// The point of a key.
pub fn point_of(key: u64) -> Point
    ensures { IsKey key → result ≡ key }
{
    let x = key / 268_435_456 % 16_384;
    let y = key / 16_384 % 16_384;
    let z = key % 16_384;
    match Point::new(x as i64, y as i64, z as i64) {
        Ok(p) => p,
        Err(_) => unreachable!(),
    }
}

/// The keys of a facet's points in ascending order, where that of the infinite vertex is the last. Contracts see them
/// as the facet.
#[derive(Clone, Copy)]
pub struct Face {
    pub x: u64,
    pub y: u64,
    pub z: u64,
}

impl Model for Face {
    ghost use Rattle.point_order.specs.declared.cell.Facet.{Facet};
    ghost use Rattle.cell_slots.specs.Corners.{AreFaceKeys, facet_of, key_of, points_on};

    ghost Value = { Facet };

    ghost view = { λ f. facet_of f.x f.y f.z };

    ghost invariant = { λ f. AreFaceKeys f.x f.y f.z };

    ghost inverse = { λ f. record {
      x = key_of (points_on f) 0;
      y = key_of (points_on f) 1;
      z = key_of (points_on f) 2;
    } };
}

impl Face {
    // The facet of three keys.
    fn new(x: u64, y: u64, z: u64) -> Face
        requires { AreFaceKeys x y z }
        ensures { result ≡ facet_of x y z }
    {
        Face { x, y, z }
    }

    /// The keys of a facet.
    pub fn of(facet: &Facet) -> Face
        ensures { result ≡ facet.now }
    {
        match facet {
            Facet::Three(tri) => {
                let (a, b, c) = tri.corners();
                Face::new(a.key(), b.key(), c.key())
            }
            Facet::Two(pair) => {
                let (a, b) = pair.corners();
                Face::new(a.key(), b.key(), INFINITE)
            }
        }
    }

    /// Whether the facet has the point.
    pub fn has(&self, p: Point) -> bool
        ensures { result ≡ is_among p (points_on self.now) }
    {
        let key = p.key();
        self.x == key || self.y == key || self.z == key
    }
}

/// The keys of a cell's points in ascending order, where that of the infinite vertex is the last. Contracts see them as
/// the cell.
#[derive(Clone, Copy)]
pub struct Corners {
    pub a: u64,
    pub b: u64,
    pub c: u64,
    pub d: u64,
}

impl Model for Corners {
    ghost use Rattle.point_order.specs.declared.cell.Cell.{Cell};
    ghost use Rattle.cell_slots.specs.Corners.{AreCellKeys, cell_of, key_of, points_of};

    ghost Value = { Cell };

    ghost view = { λ q. cell_of q.a q.b q.c q.d };

    ghost invariant = { λ q. AreCellKeys q.a q.b q.c q.d };

    ghost inverse = { λ q. record {
      a = key_of (points_of q) 0;
      b = key_of (points_of q) 1;
      c = key_of (points_of q) 2;
      d = key_of (points_of q) 3;
    } };
}

// Of two points that follow one another the one that stays where a point is missing.
#[inline(always)]
fn one_of(missing: u64, first: u64, second: u64) -> u64
    ensures first { first < missing → result ≡ first }
    ensures second { missing ≤ first → result ≡ second }
{
    if missing > first { first } else { second }
}

impl Corners {
    /// The keys of a cell.
    pub fn of(cell: &Cell) -> Corners
        ensures { result ≡ cell.now }
    {
        match cell {
            Cell::Full(quad) => {
                let (a, b, c, d) = quad.corners();
                Corners {
                    a: a.key(),
                    b: b.key(),
                    c: c.key(),
                    d: d.key(),
                }
            }
            Cell::Open(tri) => {
                let (a, b, c) = tri.corners();
                Corners {
                    a: a.key(),
                    b: b.key(),
                    c: c.key(),
                    d: INFINITE,
                }
            }
        }
    }

    /// The cell of a facet and a point that is none of the facet's.
    pub fn over(face: &Face, p: Point) -> Corners
        requires { IsFacetApart face.now p }
        ensures { result ≡ cell_over face.now p }
    {
        let key = p.key();
        let (a, next) = (face.x.min(key), face.x.max(key));
        let (b, next) = (face.y.min(next), face.y.max(next));
        let (c, d) = (face.z.min(next), face.z.max(next));
        Corners { a, b, c, d }
    }

    /// The cell.
    pub fn to_cell(&self) -> Cell
        ensures { result ≡ self.now }
    {
        let (a, b, c) = (point_of(self.a), point_of(self.b), point_of(self.c));
        if self.d == INFINITE {
            Cell::hull(a, b, c)
        } else {
            Cell::full(a, b, c, point_of(self.d))
        }
    }

    /// The triple of an Open cell.
    pub fn triple(&self) -> Option<Tri>
        ensures { MatchOption result ((q : List ℕ) × (self.now ≡ Full q)) (λ t. self.now ≡ Open t) }
    {
        if self.d != INFINITE {
            return None;
        }
        match self.to_cell() {
            Cell::Open(tri) => Some(tri),
            Cell::Full(_) => unreachable!(),
        }
    }

    /// Whether the cell is Open.
    pub fn is_open(&self) -> bool {
        self.d == INFINITE
    }

    /// The four points of a Full cell.
    pub fn points(&self) -> (Point, Point, Point, Point) {
        (
            point_of(self.a),
            point_of(self.b),
            point_of(self.c),
            point_of(self.d),
        )
    }

    /// Whether the two are one cell. The points that mostly differ are compared first.
    pub fn is_same(&self, other: &Corners) -> bool
        ensures { IsTrue result ↔ (self.now ≡ other.now) }
    {
        self.b == other.b && self.c == other.c && self.a == other.a && self.d == other.d
    }

    /// Whether the point is one of the cell's.
    pub fn has(&self, p: Point) -> bool
        ensures { result ≡ is_among p (points_of self.now) }
    {
        let key = p.key();
        self.a == key || self.b == key || self.c == key || self.d == key
    }

    /// The four facets: facet k lacks point k.
    pub fn facets(&self) -> [Face; 4]
        ensures { result ≡ facets_of self.now }
    {
        let (a, b, c, d) = (self.a, self.b, self.c, self.d);
        [
            Face::new(b, c, d),
            Face::new(a, c, d),
            Face::new(a, b, d),
            Face::new(a, b, c),
        ]
    }

    /// Which of its facets it is, or 4, where it is none. The point that is not the facet's is told by the sums of the
    /// keys, and then no branch is taken that a processor would have to guess.
    pub fn number_of(&self, face: &Face) -> usize
        ensures { (result < 4) ↔ IsIn face.now (facets_of self.now) }
    {
        let missing = (self.a + self.b + self.c + self.d).wrapping_sub(face.x + face.y + face.z);
        let x = one_of(missing, self.a, self.b);
        let y = one_of(missing, self.b, self.c);
        let z = one_of(missing, self.c, self.d);
        if x == face.x && y == face.y && z == face.z {
            (missing > self.a) as usize + (missing > self.b) as usize + (missing > self.c) as usize
        } else {
            4
        }
    }

    // Whether the two differ. Cells on one facet do in the sums of their keys, so that there no branch is taken that a
    // processor would have to guess.
    fn differs(&self, other: &Corners) -> bool
        ensures { IsTrue result ↔ ¬ (self.now ≡ other.now) }
    {
        self.a + self.b + self.c + self.d != other.a + other.b + other.c + other.d
            || !self.is_same(other)
    }

    /// Which of its facets the facet is, where it is another cell on it than the given one, else 4.
    pub fn number_across(&self, cell: &Corners, facet: &Face) -> usize
        ensures { (result < 4) ↔ IsOtherOn cell.now facet.now self.now }
    {
        let number = self.number_of(facet);
        if number < 4 && self.differs(cell) {
            number
        } else {
            4
        }
    }

    /// Whether it is another cell on a facet of a cell.
    pub fn is_across(&self, cell: &Corners, facet: &Face) -> bool
        ensures { IsTrue result ↔ IsOtherOn cell.now facet.now self.now }
    {
        self.number_across(cell, facet) < 4
    }

    /// The point across from one of its facets; none where that is the infinite vertex.
    pub fn point_beyond(&self, face: &Face) -> Option<Point>
        requires { IsIn face.now (facets_of self.now) }
        ensures { (x : ℕ) → IsIn x (points_of self.now) → IsIn x (points_on face.now) ⊎ (result ≡ Some x) }
    {
        if self.d != face.z {
            return if self.d == INFINITE {
                None
            } else {
                Some(point_of(self.d))
            };
        }
        let key = if self.c != face.y {
            self.c
        } else if self.b != face.x {
            self.b
        } else {
            self.a
        };
        Some(point_of(key))
    }

    /// Whether the point is in conflict with the cell. The mate of a Full cell is not looked at.
    pub fn is_taken(&self, mate: Point, p: Point) -> bool
        requires { CanJudge self.now mate p }
        ensures { result ≡ is_in_conflict self.now mate p }
    {
        if self.d == INFINITE {
            conflict(&self.to_cell(), mate, p)
        } else {
            !outside(
                point_of(self.a),
                point_of(self.b),
                point_of(self.c),
                point_of(self.d),
                p,
            )
        }
    }
}
