//! The parts of an alpha complex.

ghost use Rattle.std.specs.Prelude.{◌≡◌};

use point_order::Quad;

/// A solid part: cells that chains join, each sharing a triple with the next.
#[derive(Drop)]
pub struct Part {
    /// The cells, in lexicographic order.
    pub cells: Vec<Quad>,
}

/// How large a part is.
#[derive(Clone, Copy, Debug, PartialEq, Eq)]
pub struct PartSize {
    /// How many cells it has.
    pub cells: u64,
    /// How many triangles its boundary has.
    pub triangles: u64,
}

/// The size of a part of so many cells and triangles.
pub(crate) fn size(cells: usize, triangles: usize) -> PartSize
    ensures { result ≡ record { cells = cells; triangles = triangles } }
{
    PartSize {
        cells: cells as u64,
        triangles: triangles as u64,
    }
}
