//! Edits of a set of points, what each answers, and the histories that they leave.
//!
//! The definitions stand in `specs/`: what an edit answers and leaves, legal histories, the opening four points,
//! and the history of one thread.
//!
//! ```
//! let four = find_four(&points)?;                 // the places of the opening four, or NotSolid
//! let reply = set.after(Edit::Add(p))?;           // Inserted or Duplicate; on want of memory the set is as before
//! let entries = merge(alloc, &lists)?;            // in order of number
//! ```
#![tactic(auto)]

mod history;
pub mod laws;
mod merging;
pub mod opening;
mod point_set;

pub use history::{Edit, Entry, Receipt, Reply};
pub use merging::merge;
pub use opening::{NotSolid, find_four};
pub use point_set::PointSet;
