//! Where the facets of cells may stand among the triples.

use face_list::Faces;
use point_order::{Cell, Point, Tri};
use std::alloc::{AllocError, Global};

// Which facet of a cell with these points the triple may be: that which lacks the first point that it lacks.
fn facet_of(points: &[Point], tri: &Tri) -> usize {
    let (a, b, c) = tri.corners();
    match points {
        [p, ..] if *p != a => 0,
        [_, q, ..] if *q != b => 1,
        [_, _, r, _] if *r != c => 2,
        _ => 3,
    }
}

// Says of a facet of a cell where it may stand.
fn put_place(places: &mut [[u32; 4]], cells: &[Cell], number: usize, tri: &Tri, place: usize) {
    if let (Some(places), Some(cell)) = (places.get_mut(number), cells.get(number)) {
        if let Some(old) = places.get_mut(facet_of(cell.points(), tri)) {
            *old = u32::try_from(place).unwrap_or(u32::MAX);
        }
    }
}

/// For each facet of each cell a place among the triples, where it may stand. It is to be looked at before it is
/// believed.
///
/// # Errors
/// Want of memory.
pub(crate) fn places_of(alloc: Global, faces: &Faces) -> Result<Vec<[u32; 4]>, AllocError> {
    let mut places = vec![in alloc; [0; 4]; faces.cells().len()]?;
    for index in 0..faces.triples().len() {
        let (tri, around) = faces.triple(index);
        for number in around {
            put_place(&mut places, faces.cells(), *number as usize, &tri, index);
        }
    }
    Ok(places)
}

/// The places of the facets of a cell.
pub(crate) fn places_at(places: &[[u32; 4]], number: usize) -> [u32; 4] {
    match places.get(number) {
        Some(places) => *places,
        None => [0; 4],
    }
}
