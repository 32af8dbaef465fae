//! The triples that one cell has, turned.

ghost use Rattle.std.specs.Prelude.{◌≡◌, ◌<◌, ◌∷◌, [], filter_map, length, map, slice_index_or, IfOk};
ghost use Rattle.point_order.specs.declared.cell.Cell.TheVariants.{Full};
ghost use Rattle.point_order.specs.Sets.{is_among};
ghost use Rattle.solid_parts.specs.Boundary.{apex_of, outer_of, turned as turned_of};

use exact_orient::orient;
use face_list::Faces;
use point_order::{Cell, Point, Quad, Tri};
use std::alloc::{AllocError, Global};

// Whether the point is one of the triple's.
fn has(triple: &Tri, p: Point) -> bool
    ensures { result ≡ is_among p triple.now }
{
    triple.points().contains(&p)
}

// The fourth point of a cell that has the three.
fn apex(triple: &Tri, quad: Quad) -> Point
    ensures { result ≡ apex_of triple.now quad }
{
    let (a, b, c, d) = quad.corners();
    if !has(triple, a) {
        a
    } else if !has(triple, b) {
        b
    } else if !has(triple, c) {
        c
    } else {
        d
    }
}

// The three points, the least first, turned so that the orientation with the fourth is negative.
fn turned(triple: Tri, apex: Point) -> [Point; 3]
    ensures { result ≡ turned_of triple apex }
{
    let (a, b, c) = triple.corners();
    if orient(a, b, c, apex) < 0 {
        [a, b, c]
    } else {
        [a, c, b]
    }
}

/// The cells of some quadruples.
///
/// # Errors
/// Want of memory.
pub fn full_cells(alloc: Global, quads: &[Quad]) -> Result<Vec<Cell>, AllocError>
    ensures { IfOk result (λ v. v.items ≡ map Full quads.now) }
{
    let mut cells = Vec::with_capacity(alloc, quads.len())?;
    for quad in quads {
        cells.push(Cell::Full(*quad))?;
    }
    Ok(cells)
}

// The triple, turned, where the one cell beside it is Full.
fn beside(triple: Tri, cell: Cell) -> Option<[Point; 3]>
    ensures { result ≡ outer_of (triple, cell ∷ []) }
{
    match cell {
        Cell::Full(quad) => Some(turned(triple, apex(&triple, quad))),
        Cell::Open(_) => None,
    }
}

// The triple of an index, turned, where exactly one cell has it, a Full one.
fn outer(faces: &Faces, index: usize) -> Option<[Point; 3]>
    requires { index < length faces.now.triples }
    ensures { result ≡ outer_of (slice_index_or faces.now.triples index ([], [])) }
{
    let (triple, around) = faces.triple(index);
    match around {
        [number] => beside(triple, faces.cells()[*number as usize]),
        _ => None,
    }
}

/// The triples that exactly one cell has, a Full one, turned, in the order of the triples.
///
/// # Errors
/// Want of memory.
pub fn outside_of(alloc: Global, faces: &Faces) -> Result<Vec<[Point; 3]>, AllocError>
    ensures { IfOk result (λ v. v.items ≡ filter_map outer_of faces.now.triples) }
{
    let mut outside = Vec::new(alloc);
    for index in 0..faces.triples().len() {
        match outer(faces, index) {
            Some(triangle) => outside.push(triangle)?,
            None => {}
        }
    }
    Ok(outside)
}
