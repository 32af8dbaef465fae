//! Whether lists of cells and triples are the complex of a set of points.
//!
//! It judges what a program, this one or another, has written. A mesh without a flaw is known at once, since it equals
//! the complex that `cloud_cells` makes of the points; in any other the first cell that is none of that complex is
//! tried against each point. No code of the mesh by buckets takes part.
//!
//! ```
//! match check(alloc, &points, &cells, &hull)? {
//!     Verdict::Good => ..,       // the points are solid, and the lists are their complex
//!     Verdict::Bad(flaw) => ..,  // the first flaw, which alone shows that they are not
//! }
//! let text = verdict_text(alloc, &points, &verdict)?;
//! ```
#![tactic(auto)]

mod cells;
mod flaw;
mod gaps;
mod judging;
pub mod laws;
mod matching;
mod text;

pub use cloud_cells::Made;
pub use flaw::{Flaw, Verdict};
pub use judging::check;
pub use matching::made_of;
pub use text::{Told, tell, verdict_text};
