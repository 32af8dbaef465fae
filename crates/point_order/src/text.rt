//! How cells and facets are written.

ghost use Rattle.std.specs.Prelude.{◌∷◌, ◌++◌, codes};
ghost use Rattle.std.specs.Fmt.{WritesOnOk};
ghost use Rattle.point_order.specs.Texts.{points_to};

use crate::cell::{Cell, Facet, Pair, Quad, Tri};
use crate::point::Point;
use std::fmt;

// Writes points behind a bracket, with a comma between two: the first, the others, and an end behind them.
fn put_points<W: fmt::Write>(
    f: &mut fmt::Formatter<W>,
    first: Point,
    others: &[Point],
    end: &str,
) -> fmt::Result
    ensures { WritesOnOk W.write_str_gives f.old result (codes "[" ++ points_to end.now (first ∷ others.now)) f.new }
{
    write!(f, "[{first}")?;
    for p in others {
        write!(f, ", {p}")?;
    }
    f.write_str(end)
}

impl fmt::Display for Pair {
    ghost use Rattle.point_order.specs.Texts.{points_text};
    ghost use Rattle.std.specs.Prelude.{Some};

    ghost output = { λ q. Some (points_text q) };

    /// Writes the two points, as `[(0, 0, 0), (0, 0, 2)]`.
    fn fmt<W: fmt::Write>(&self, f: &mut fmt::Formatter<W>) -> fmt::Result {
        let (a, b) = self.corners();
        put_points(f, a, &[b], "]")
    }
}

impl fmt::Display for Tri {
    ghost use Rattle.point_order.specs.Texts.{points_text};
    ghost use Rattle.std.specs.Prelude.{Some};

    ghost output = { λ q. Some (points_text q) };

    /// Writes the three points, as a pair its two.
    fn fmt<W: fmt::Write>(&self, f: &mut fmt::Formatter<W>) -> fmt::Result {
        let (a, b, c) = self.corners();
        put_points(f, a, &[b, c], "]")
    }
}

impl fmt::Display for Quad {
    ghost use Rattle.point_order.specs.Texts.{points_text};
    ghost use Rattle.std.specs.Prelude.{Some};

    ghost output = { λ q. Some (points_text q) };

    /// Writes the four points, as a pair its two.
    fn fmt<W: fmt::Write>(&self, f: &mut fmt::Formatter<W>) -> fmt::Result {
        let (a, b, c, d) = self.corners();
        put_points(f, a, &[b, c, d], "]")
    }
}

impl fmt::Display for Cell {
    ghost use Rattle.point_order.specs.Texts.{cell_text};
    ghost use Rattle.std.specs.Prelude.{Some};

    ghost output = { λ c. Some (cell_text c) };

    /// Writes the points, and the word `infinite` behind those of an Open cell.
    fn fmt<W: fmt::Write>(&self, f: &mut fmt::Formatter<W>) -> fmt::Result {
        match self {
            Cell::Full(quad) => quad.fmt(f),
            Cell::Open(tri) => {
                let (a, b, c) = tri.corners();
                put_points(f, a, &[b, c], ", infinite]")
            }
        }
    }
}

impl fmt::Display for Facet {
    ghost use Rattle.point_order.specs.Texts.{facet_text};
    ghost use Rattle.std.specs.Prelude.{Some};

    ghost output = { λ f. Some (facet_text f) };

    /// Writes the points, and the word `infinite` behind those of a facet with the infinite vertex.
    fn fmt<W: fmt::Write>(&self, f: &mut fmt::Formatter<W>) -> fmt::Result {
        match self {
            Facet::Three(tri) => tri.fmt(f),
            Facet::Two(pair) => {
                let (a, b) = pair.corners();
                put_points(f, a, &[b], ", infinite]")
            }
        }
    }
}
