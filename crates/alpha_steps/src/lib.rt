//! The least alphas of the faces of a complex, and their text.
//!
//! The threshold of a face is the least alpha at which it is admitted, a squared radius in sixteenths, rounded up. So
//! the faces of thresholds up to an alpha are its alpha complex (the filtration of `Alpha_shape_3` of CGAL).
//!
//! ```
//! let faces = faces(rt, alloc, &cells)?;          // of the sorted cells of a complex
//! let list = thresholds(rt, alloc, &faces)?;
//! for index in 0..list.pair_count() {
//!     let (pair, threshold) = list.pair(index);   // At(alpha) or Never
//! }
//! put_steps(&mut out, &list)?;                    // takes no memory
//! ```
#![tactic(auto)]

ghost use Rattle.std.specs.Prelude.{ℕ, List, IfOk};
ghost use Rattle.alpha_complex.specs.Condition.{AreFaces, AreFacesOf};
ghost use Rattle.alpha_steps.specs.Thresholds.{AreThresholds};

pub mod steps;
mod texts;
pub mod threshold;

use alpha_complex::{Alphas, alphas};
use face_list::Faces;
use std::alloc::{AllocError, Global};
use std::thread::Threads;
pub use steps::Thresholds;
pub use texts::{put_steps, text_room};
pub use threshold::Threshold;

/// The thresholds of the faces of a complex, which are what `face_list::faces` gives of the complex of a solid set, its
/// cells in order.
///
/// # Errors
/// Want of memory.
pub fn thresholds<'a, 'b, R: Threads + Sync>(
    rt: &R,
    alloc: Global,
    faces: &'a Faces<'b>,
) -> Result<Thresholds<'a, 'b>, AllocError>
    requires { AreFaces faces.now }
    ensures { IfOk result (λ list. (s : List ℕ) → AreFacesOf s faces.now → AreThresholds s list) }
{
    let known = alphas(rt, alloc, faces)?;
    let Alphas {
        faces,
        pairs,
        triples,
        cells,
    } = known;
    Ok(Thresholds {
        faces,
        pairs,
        triples,
        cells,
    })
}
