//! What the commands of the program are to make of what they read, and how a run ends by it: the texts of a set of
//! points, and the laws of the words and of the end of a run.
//!
//! ```
//! let text = steps_text(rt, alloc, &points, &cells)?;       // the least alphas of the faces of a set
//! let told = parted(rt, alloc, &points, &cells, wanted)?;   // its solid parts, or why there is nothing to tell
//! let text = near_text(alloc, &mesh, &points, &queries)?;    // of each query the nearest point of a mesh
//! let ended = end(rt, alloc, made, out);                    // what was made is written, and the run ends
//! tell(err, &ended.stop);
//! ```
#![tactic(auto)]

mod ends;
pub mod laws;
mod nearest;
mod outcome;
mod steps;
mod told;

pub use ends::{Ended, end, tell};
pub use nearest::near_text;
pub use outcome::Run;
pub use steps::steps_text;
pub use told::{Told, parted};
