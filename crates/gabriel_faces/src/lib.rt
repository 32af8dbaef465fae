//! Gabriel faces of a complex, judged by their links.
//!
//! A face is Gabriel where no point of the set lies strictly inside its smallest circumscribing sphere (Gabriel
//! and Sokal; `Alpha_shape_3` of CGAL; Edelsbrunner and Mücke, Three-dimensional alpha shapes). Whether an edge
//! or a triangle of a complex is need not be asked of all points: those of its link suffice, which are the
//! other points of the cells that contain it.
//!
//! ```
//! let (tri, around) = faces.triple(index);  // of the faces of a complex
//! let (a, b, c) = tri.corners();
//! let mut link = Vec::new(alloc);
//! for number in around {
//!     for p in faces.cells()[*number as usize].points() {
//!         if !tri.points().contains(p) {
//!             link.push(*p)?;
//!         }
//!     }
//! }
//! let gabriel = gabriel_triangle(a, b, c, &link);  // among all points of the set
//! ```
#![tactic(auto)]

ghost use Rattle.std.specs.Prelude.{◌≡◌, ℕ, List, [], ◌∷◌};
ghost use Rattle.point_order.specs.Sets.{IsAscending};
ghost use Rattle.del_laws.specs.Keys.{AreKeys};
ghost use Rattle.gabriel_faces.specs.Gabriel.{is_gabriel, is_empty_edge, is_empty_triangle};
ghost use Rattle.gabriel_faces.specs.Links.{IsFace, IsLink};

pub mod laws;

use point_order::Point;
use small_spheres::{inside_edge, inside_triangle};

/// Whether no point of the link lies strictly inside the smallest circumscribing sphere of the edge.
///
/// Where the edge is one of a complex and the link is its own there, which is the other finite points of the cells that
/// contain the edge, Open ones too, the answer is whether the edge is Gabriel: no point of the whole set lies inside.
pub fn gabriel_edge(a: Point, b: Point, link: &[Point]) -> bool
    ensures over_link { result ≡ is_empty_edge link.now a b }
    ensures over_set { (s : List ℕ) → IsAscending s → AreKeys s → IsFace s (a ∷ b ∷ []) →
        IsLink s (a ∷ b ∷ []) link.now →
        result ≡ is_gabriel s (a ∷ b ∷ []) }
{
    is_edge_empty(a, b, link)
}

/// Whether no point of the link lies strictly inside the smallest circumscribing sphere of the triangle.
///
/// Where the triangle is one of a complex and the link is its own there, which is the opposite points of its one or two
/// Full cells, the answer is whether the triangle is Gabriel: no point of the whole set lies inside.
pub fn gabriel_triangle(a: Point, b: Point, c: Point, link: &[Point]) -> bool
    ensures over_link { result ≡ is_empty_triangle link.now a b c }
    ensures over_set { (s : List ℕ) → IsAscending s → AreKeys s → IsFace s (a ∷ b ∷ c ∷ []) →
        IsLink s (a ∷ b ∷ c ∷ []) link.now →
        result ≡ is_gabriel s (a ∷ b ∷ c ∷ []) }
{
    is_triangle_empty(a, b, c, link)
}

// Whether none of the points lies strictly inside the smallest circumscribing sphere of the edge.
fn is_edge_empty(a: Point, b: Point, points: &[Point]) -> bool
    ensures { result ≡ is_empty_edge points.now a b }
{
    points.iter().all(|e| !inside_edge(a, b, *e))
}

// Whether none of the points lies strictly inside the smallest circumscribing sphere of the triangle.
fn is_triangle_empty(a: Point, b: Point, c: Point, points: &[Point]) -> bool
    ensures { result ≡ is_empty_triangle points.now a b c }
{
    points.iter().all(|e| !inside_triangle(a, b, c, *e))
}
