//! The alpha complex of a set of points: the admitted faces of its Delaunay complex, each with its kind.
//!
//! Alpha is a squared radius, as in `Alpha_shape_3` of CGAL, counted in sixteenths. A face of the complex is admitted
//! where some face that contains it is Gabriel and has a smallest circumscribing sphere of a squared radius of at most
//! alpha (Edelsbrunner and Mücke, Three-dimensional alpha shapes, 1994). The kinds are judged by cells alone. The
//! definitions stand in `specs/Admitted.antt`.
//!
//! ```
//! let faces = faces(rt, alloc, &cells)?;       // of the sorted cells of a complex
//! let shape = alpha(rt, alloc, &faces, 300)?;  // for one squared radius in sixteenths, below 2^34
//! let known = alphas(rt, alloc, &faces)?;      // for several: the least alphas of all faces, made once
//! // `alphas_alone(alloc, &faces)` and `alpha_alone` give the same without threads, over `face_list::few_faces`
//! for radius in [100, 200, 300] {
//!     let shape = known.shape(alloc, radius)?;
//!     println!(rt; "{radius}: {} edges, {} cells", shape.pair_count(), shape.cell_count())?;
//!     for index in 0..shape.triple_slots() {
//!         if let Some((triple, kind)) = shape.triple(index) {
//!             println!(rt; "{triple} {kind:?}")?;
//!         }
//!     }
//! }
//! ```
#![tactic(auto)]

ghost use Rattle.std.specs.Prelude.{◌≡◌, ◌<◌, ◌^◌, ℕ, List, IfOk};
ghost use Rattle.alpha_complex.specs.Condition.{AreFaces, AreFacesOf};
ghost use Rattle.alpha_complex.specs.Leasts.{AreKnown};
ghost use Rattle.alpha_complex.specs.Shapes.{shape_of};
ghost use Rattle.alpha_complex.specs.Slots.{shape_seen};
ghost use Rattle.alpha_complex.specs.Told.{TellsFaces};

mod alone;
mod covers;
mod higher;
mod kinds;
pub mod laws;
mod least;
pub mod numbers;
mod owns;
mod places;
mod rounds;
pub mod shape;
mod threads;

use face_list::Faces;
pub use numbers::{Alphas, FaceAlphas};
pub use shape::{Kind, Shape};
use std::alloc::{AllocError, Global};
use std::thread::Threads;

/// The least alphas at which the faces of a complex are admitted, made once for any number of alphas.
///
/// The faces are what `face_list::faces` gives of the complex of a solid set, its cells in order. Each Gabriel test
/// is made once, and each squared radius is taken once, by several threads, as many as there are processors; the
/// numbers are those that one thread would give.
///
/// # Errors
/// Want of memory.
pub fn alphas<'a, 'b, R: Threads + Sync>(
    rt: &R,
    alloc: Global,
    faces: &'a Faces<'b>,
) -> Result<Alphas<'a, 'b>, AllocError>
    requires { AreFaces faces.now }
    ensures faces { IfOk result (λ known. known.faces.now ≡ faces.now) }
    ensures known { IfOk result (λ known. AreKnown known) }
    ensures told { IfOk result (λ known. (s : List ℕ) → AreFacesOf s faces.now → TellsFaces s known) }
{
    let cells = threads::leasts_of_cells(rt, alloc, faces.cells())?;
    let triples = threads::leasts_of_triples(rt, alloc, faces, &cells)?;
    let pairs = threads::leasts_of_pairs(rt, alloc, faces, &cells, &triples)?;
    Ok(Alphas {
        faces,
        pairs,
        triples,
        cells,
    })
}

/// What `alphas` gives, made by the thread that calls.
///
/// # Errors
/// Want of memory.
pub fn alphas_alone<'a, 'b>(
    alloc: Global,
    faces: &'a Faces<'b>,
) -> Result<Alphas<'a, 'b>, AllocError>
    requires { AreFaces faces.now }
    ensures faces { IfOk result (λ known. known.faces.now ≡ faces.now) }
    ensures known { IfOk result (λ known. AreKnown known) }
    ensures told { IfOk result (λ known. (s : List ℕ) → AreFacesOf s faces.now → TellsFaces s known) }
{
    let cells = alone::leasts_of_cells(alloc, faces.cells())?;
    let triples = alone::leasts_of_triples(alloc, faces, &cells)?;
    let pairs = alone::leasts_of_pairs(alloc, faces, &cells, &triples)?;
    Ok(Alphas {
        faces,
        pairs,
        triples,
        cells,
    })
}

/// The alpha complex for one alpha, a squared radius in sixteenths, below 2^34: all points, and the admitted pairs,
/// triples and Full cells, each list in order, and each point, pair and triple with its kind. It borrows the faces.
///
/// The faces are what `face_list::faces` gives of the complex of a solid set, its cells in order.
///
/// It makes the numbers of all faces, as `alphas` does, and compares them: for several alphas `alphas` is to be
/// called once.
///
/// # Errors
/// Want of memory.
pub fn alpha<'a, 'b, R: Threads + Sync>(
    rt: &R,
    alloc: Global,
    faces: &'a Faces<'b>,
    alpha: u64,
) -> Result<Shape<'a, 'b>, AllocError>
    requires faces { AreFaces faces.now }
    requires alpha { alpha < 2 ^ 34 }
    ensures points { IfOk result (λ shape. (s : List ℕ) → AreFacesOf s faces.now → (shape_seen shape).points
        ≡ (shape_of s alpha).points) }
    ensures pairs { IfOk result (λ shape. (s : List ℕ) → AreFacesOf s faces.now → (shape_seen shape).pairs
        ≡ (shape_of s alpha).pairs) }
    ensures triples { IfOk result (λ shape. (s : List ℕ) → AreFacesOf s faces.now → (shape_seen shape).triples
        ≡ (shape_of s alpha).triples) }
    ensures cells { IfOk result (λ shape. (s : List ℕ) → AreFacesOf s faces.now → (shape_seen shape).cells
        ≡ (shape_of s alpha).cells) }
{
    let known = alphas(rt, alloc, faces)?;
    known.shape(alloc, alpha)
}

/// What `alpha` gives, made by the thread that calls.
///
/// # Errors
/// Want of memory.
pub fn alpha_alone<'a, 'b>(
    alloc: Global,
    faces: &'a Faces<'b>,
    alpha: u64,
) -> Result<Shape<'a, 'b>, AllocError>
    requires faces { AreFaces faces.now }
    requires alpha { alpha < 2 ^ 34 }
    ensures points { IfOk result (λ shape. (s : List ℕ) → AreFacesOf s faces.now → (shape_seen shape).points
        ≡ (shape_of s alpha).points) }
    ensures pairs { IfOk result (λ shape. (s : List ℕ) → AreFacesOf s faces.now → (shape_seen shape).pairs
        ≡ (shape_of s alpha).pairs) }
    ensures triples { IfOk result (λ shape. (s : List ℕ) → AreFacesOf s faces.now → (shape_seen shape).triples
        ≡ (shape_of s alpha).triples) }
    ensures cells { IfOk result (λ shape. (s : List ℕ) → AreFacesOf s faces.now → (shape_seen shape).cells
        ≡ (shape_of s alpha).cells) }
{
    let known = alphas_alone(alloc, faces)?;
    known.shape(alloc, alpha)
}
