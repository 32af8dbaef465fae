//! The solid parts of an alpha complex, their boundaries, and the least alpha at which there are few.
//!
//! Two admitted cells are in one part where a chain of admitted cells joins them, each sharing a triple with the next
//! (`number_of_solid_components` of `Alpha_shape_3` of CGAL counts them). The definitions stand in `specs/Parts.antt`.
//!
//! ```
//! let faces = faces(rt, alloc, &cells)?;             // of the sorted cells of a complex
//! let parts = parts(alloc, &faces, 4800)?;            // at a squared radius of 300
//! for part in &parts {
//!     let outside = boundary(alloc, part)?;           // triangles, each turned the same way round
//! }
//! put_parts(&mut out, 4800, &sizes(alloc, &parts)?)?;
//! let least = least_alpha(rt, alloc, &faces, 1)?;     // at which all points are in one part
//! let least = least_alpha_alone(alloc, &faces, 1)?;   // the same, by the thread that calls
//! ```
#![tactic(auto)]

ghost use Rattle.std.specs.Prelude.{◌≡◌, ◌<◌, ◌≤◌, ◌^◌, ◌↔◌, ℕ, List, IfOk, IsTrue, map};
ghost use Rattle.alpha_complex.specs.Condition.{AreFaces, AreFacesOf};
ghost use Rattle.alpha_complex.specs.Admitted.{is_admitted_cell};
ghost use Rattle.alpha_complex.specs.Judged.{is_small_cell};
ghost use Rattle.alpha_complex.specs.Leasts.{AreLeastOf};
ghost use Rattle.alpha_complex.specs.Shapes.{shape_of};
ghost use Rattle.point_order.specs.Complex.{complex};
ghost use Rattle.solid_parts.specs.Boundary.{boundary_of};
ghost use Rattle.solid_parts.specs.LeastAlpha.{IsCompact, IsLeastAlpha, IsStart};
ghost use Rattle.solid_parts.specs.Parts.{AreSolidParts};
ghost use Rattle.solid_parts.specs.Seen.{parts_seen};
ghost use Rattle.solid_parts.specs.Text.{size_of};

mod climb;
mod gathering;
mod groups;
mod labels;
pub mod laws;
mod least;
mod links;
mod marks;
pub mod part;
mod texts;
mod turning;

use alpha_complex::{Alphas, alphas, alphas_alone};
use climb::{Climb, climb_to, count_to};
use face_list::{Faces, few_faces};
use gathering::gather;
use labels::{labels_of, numbers_below};
use least::{cover_least, in_order, sorted};
use links::ordered_links;
use marks::marks_of;
use part::size;
pub use part::{Part, PartSize};
use point_order::Point;
use std::alloc::{AllocError, Global};
use std::thread::Threads;
pub use texts::put_parts;
use turning::{full_cells, outside_of};

// Every alpha is below this.
const BEYOND: u64 = 1 << 34;

/// The solid parts of the alpha complex at an alpha, a squared radius in sixteenths, below 2^34, in the order of their
/// least cells.
///
/// The faces are what `face_list::faces` gives of the complex of a solid set, its cells in order.
///
/// # Errors
/// Want of memory.
pub fn parts(alloc: Global, faces: &Faces, alpha: u64) -> Result<Vec<Part>, AllocError>
    requires faces { AreFaces faces.now }
    requires alpha { alpha < 2 ^ 34 }
    ensures { IfOk result (λ parts. (s : List ℕ) → AreFacesOf s faces.now →
        AreSolidParts (shape_of s alpha).cells (parts_seen parts.items)) }
{
    let marks = marks_of(alloc, faces.cells(), alpha)?;
    let labels = labels_of(alloc, faces, &marks)?;
    gather(alloc, faces.cells(), &marks, &labels)
}

// Whether a number is an alpha at which every point is in an admitted cell and there are at most k parts. From `start`
// on every point is, and there are at least `apart` parts.
fn is_compact(
    alloc: Global,
    faces: &Faces,
    start: u64,
    alpha: u64,
    k: u32,
    apart: usize,
) -> Result<bool, AllocError>
    requires faces { AreFaces faces.now }
    requires start { (s : List ℕ) → AreFacesOf s faces.now → alpha < 2 ^ 34 → IsStart s alpha start }
    requires apart { (s : List ℕ) → AreFacesOf s faces.now → alpha < 2 ^ 34 → IsCompact s k alpha → apart ≤ k }
    ensures { IfOk result (λ b. (s : List ℕ) → AreFacesOf s faces.now →
        IsTrue b ↔ (alpha < 2 ^ 34 × IsCompact s k alpha)) }
{
    if alpha < start || alpha >= BEYOND {
        return Ok(false);
    }
    if apart > k as usize {
        return Ok(false);
    }
    let parts = parts(alloc, faces, alpha)?;
    Ok(parts.len() <= k as usize)
}

// The least of the numbers of the cells at which every point is in an admitted cell and there are at most k parts. The
// cells are joined in the order of their numbers, and the parts are made only where the count says that they are few.
fn first_compact(
    alloc: Global,
    faces: &Faces,
    leasts: &[u64],
    start: u64,
    k: u32,
) -> Result<Option<u64>, AllocError>
    requires faces { AreFaces faces.now }
    requires own { AreLeastOf is_small_cell faces.now.cells leasts.now }
    requires told { (s : List ℕ) → AreFacesOf s faces.now → AreLeastOf (is_admitted_cell s) (complex s) leasts.now }
    requires start { (s : List ℕ) → AreFacesOf s faces.now → (alpha : ℕ) → alpha < 2 ^ 34 → IsStart s alpha start }
    ensures { IfOk result (λ least. (s : List ℕ) → AreFacesOf s faces.now → IsLeastAlpha s k least) }
{
    let numbers = sorted(alloc, leasts)?;
    let levels = in_order(alloc, leasts)?;
    let links = ordered_links(alloc, faces, leasts)?;
    let mut leads = numbers_below(alloc, leasts.len())?;
    let mut climb = Climb { next: 0, merges: 0 };
    for level in levels.iter() {
        climb = climb_to(&mut leads, &links, climb, *level);
        let apart = count_to(&numbers, *level).saturating_sub(climb.merges);
        if is_compact(alloc, faces, start, *level, k, apart)? {
            return Ok(Some(*level));
        }
    }
    Ok(None)
}

/// The least alpha, a squared radius in sixteenths, below 2^34, at which every point is in an admitted cell and there
/// are at most k parts; none where there is none. The number of parts may rise with alpha.
///
/// The faces are what `face_list::faces` gives of the complex of a solid set, its cells in order.
///
/// # Errors
/// Want of memory.
pub fn least_alpha<R: Threads + Sync>(
    rt: &R,
    alloc: Global,
    faces: &Faces,
    k: u32,
) -> Result<Option<u64>, AllocError>
    requires faces { AreFaces faces.now }
    requires k { 1 ≤ k }
    ensures { IfOk result (λ least. (s : List ℕ) → AreFacesOf s faces.now → IsLeastAlpha s k least) }
{
    let known = alphas(rt, alloc, faces)?;
    let start = cover_least(&known);
    first_compact(alloc, faces, &known.cells, start, k)
}

/// What `least_alpha` gives, made by the thread that calls.
///
/// # Errors
/// Want of memory.
pub fn least_alpha_alone(alloc: Global, faces: &Faces, k: u32) -> Result<Option<u64>, AllocError>
    requires { AreFaces faces.now }
    ensures { IfOk result (λ least. (s : List ℕ) → AreFacesOf s faces.now → IsLeastAlpha s k least) }
{
    let known = alphas_alone(alloc, faces)?;
    let start = cover_least(&known);
    first_compact(alloc, faces, &known.cells, start, k)
}

/// The boundary of a part: the triples that exactly one of its cells has, in order, each with its least point first and
/// turned so that its orientation with the fourth point of that cell is negative.
///
/// # Errors
/// Want of memory.
pub fn boundary(alloc: Global, part: &Part) -> Result<Vec<[Point; 3]>, AllocError>
    ensures { IfOk result (λ v. v.items ≡ boundary_of part.now.cells.items) }
{
    let cells = full_cells(alloc, &part.cells)?;
    let faces = few_faces(alloc, &cells)?;
    outside_of(alloc, &faces)
}

/// The size of each part, in their order.
///
/// # Errors
/// Want of memory.
pub fn sizes(alloc: Global, parts: &[Part]) -> Result<Vec<PartSize>, AllocError>
    ensures { IfOk result (λ v. v.items ≡ map size_of (parts_seen parts.now)) }
{
    let mut sizes = Vec::with_capacity(alloc, parts.len())?;
    for part in parts {
        let outside = boundary(alloc, part)?;
        sizes.push(size(part.cells.len(), outside.len()))?;
    }
    Ok(sizes)
}
