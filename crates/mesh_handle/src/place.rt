//! Where a place lies in a mesh.

use point_order::Cell;

/// Where a place lies in a mesh.
#[derive(Clone, Copy, Debug, PartialEq, Eq)]
pub enum Location {
    /// A point of the mesh stands there.
    Vertex,
    /// A cell with which a point there would be in conflict: a tetrahedron whose sphere it is inside, or, where it lies
    /// beyond the hull, a triangle that it sees.
    Inside(Cell),
}
