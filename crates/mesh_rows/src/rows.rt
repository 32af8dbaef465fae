//! What crosses to C.

/// A place: three coordinates, of a point each 0 to 16383.
#[repr(C)]
#[derive(Clone, Copy)]
pub struct Place {
    pub x: i64,
    pub y: i64,
    pub z: i64,
}

/// The numbers of the points of an edge, ascending.
#[repr(C)]
#[derive(Clone, Copy)]
pub struct EdgeRow {
    pub a: u32,
    pub b: u32,
}

/// The numbers of the points of a triangle, ascending.
#[repr(C)]
#[derive(Clone, Copy)]
pub struct TriangleRow {
    pub a: u32,
    pub b: u32,
    pub c: u32,
}

/// The numbers of the points of a tetrahedron, ascending, or those of the tetrahedra across from them.
#[repr(C)]
#[derive(Clone, Copy)]
pub struct CellRow {
    pub a: u32,
    pub b: u32,
    pub c: u32,
    pub d: u32,
}

/// How many rows a mesh takes. There are as many rows of neighbours as of cells.
#[repr(C)]
#[derive(Clone, Copy)]
pub struct MeshSizes {
    pub points: u64,
    pub cells: u64,
    pub hull: u64,
}

/// How many rows the faces of a mesh take, and their alphas.
#[repr(C)]
#[derive(Clone, Copy)]
pub struct FaceSizes {
    pub points: u64,
    pub edges: u64,
    pub triangles: u64,
    pub cells: u64,
}
