//! The history of one thread of point lines, without a mesh, and the set of points that it leaves.
//!
//! Whether a point is there already is told by the set of the points before it, so no cell is made.
//!
//! ```
//! let four = find_four(&points)?;
//! let entries = history_of_points(alloc, &points, four)?;     // the opening four, then the others
//! let set = set_of(alloc, &points)?;                          // ascending, each once
//! ```
#![tactic(auto)]

mod entries;
mod sets;

pub use entries::history_of_points;
pub use sets::set_of;
