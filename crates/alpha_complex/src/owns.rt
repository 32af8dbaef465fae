//! The least alphas at which faces are themselves Gabriel and within alpha.

ghost use Rattle.std.specs.Prelude.{◌≡◌, ◌<◌, ◌∷◌, [], not, All, length, slice_index_or};
ghost use Rattle.std.specs.List.{filter};
ghost use Rattle.point_order.specs.Sets.{is_among};
ghost use Rattle.gabriel_faces.specs.Gabriel.{is_gabriel};
ghost use Rattle.gabriel_faces.specs.Links.{link_of};
ghost use Rattle.face_list.specs.Tables.{cells_numbered};
ghost use Rattle.alpha_complex.specs.Admitted.{is_within};
ghost use Rattle.alpha_complex.specs.Judged.{is_small_by, is_small_cell};
ghost use Rattle.alpha_complex.specs.Leasts.{IsLeastOf};

use gabriel_faces::{gabriel_edge, gabriel_triangle};
use point_order::{Cell, Point};
use small_spheres::{cell_least, edge_least, triangle_least};

/// Every alpha is below this.
pub const BEYOND: u64 = 1 << 34;

/// The number of an index.
pub(crate) fn number_at(numbers: &[u64], index: usize) -> u64
    requires { index < length numbers.now }
    ensures { result ≡ slice_index_or numbers.now index 0 }
{
    numbers[index]
}

// The least alpha that a face is within.
fn within_least(face: &[Point]) -> u64
    ensures { IsLeastOf (λ alpha. is_within alpha face.now) result }
{
    match face {
        [a, b] => edge_least(*a, *b),
        [a, b, c] => triangle_least(*a, *b, *c),
        [a, b, c, d] => cell_least(*a, *b, *c, *d),
        _ => 0,
    }
}

/// The least alpha at which the cell is Full and within alpha.
pub(crate) fn cell_least_of(cell: &Cell) -> u64
    ensures { IsLeastOf (λ alpha. is_small_cell alpha cell.now) result }
{
    match cell {
        Cell::Full(quad) => within_least(quad.points()),
        Cell::Open(_) => BEYOND,
    }
}

/// Whether the point is one of the face's.
pub(crate) fn is_one_of(face: &[Point], p: Point) -> bool
    ensures { result ≡ is_among p face.now }
{
    face.contains(&p)
}

// Whether the point is not inside the smallest circumscribing sphere of the face.
fn is_free_of(face: &[Point], p: Point) -> bool
    ensures { result ≡ is_gabriel (p ∷ []) face.now }
{
    match face {
        [a, b] => gabriel_edge(*a, *b, &[p]),
        [a, b, c] => gabriel_triangle(*a, *b, *c, &[p]),
        _ => true,
    }
}

// Whether those of the points that are none of the face's leave it Gabriel.
fn is_free_of_others(face: &[Point], points: &[Point]) -> bool
    ensures { result ≡ is_gabriel (filter (λ p. not (is_among p face.now)) points.now) face.now }
{
    for p in points {
        if !is_one_of(face, *p) && !is_free_of(face, *p) {
            return false;
        }
    }
    true
}

// Whether a face is Gabriel in its link: the points of the cells that contain it, told by their numbers, but for its
// own.
fn is_gabriel_beside(face: &[Point], cells: &[Cell], around: &[u32]) -> bool
    requires { All (λ n. n < length cells.now) around.now }
    ensures { result ≡ is_gabriel (link_of face.now (cells_numbered cells.now around.now)) face.now }
{
    for number in around {
        if !is_free_of_others(face, cells[*number as usize].points()) {
            return false;
        }
    }
    true
}

/// The least alpha at which a face, beside the cells that contain it, told by their numbers, is Gabriel and within
/// alpha.
pub(crate) fn own_least(face: &[Point], cells: &[Cell], around: &[u32]) -> u64
    requires { All (λ n. n < length cells.now) around.now }
    ensures { IsLeastOf (λ alpha. is_small_by alpha (face.now, cells_numbered cells.now around.now)) result }
{
    if is_gabriel_beside(face, cells, around) {
        within_least(face)
    } else {
        BEYOND
    }
}
