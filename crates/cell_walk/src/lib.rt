//! Walks to a new point over the cells of the buckets in hand.
//!
//! A walk starts in a cell and goes on through the first facet behind which the point lies, until the point
//! takes its cell away or a bucket is needed. At each step fewer cells of the buckets in hand are nearer to the
//! point, so no cell is visited twice. The definitions stand in `specs/`.
//!
//! ```
//! // from a cell at a point of bucket b; none where it shows no point
//! let mut walk = Walk::near(&hold, b, p)?;
//! for _ in 0..STEPS {
//!     match walk.step(&hold) {
//!         WalkTurn::Here(cell) => return Some(cell), // the new point p takes this cell away
//!         WalkTurn::Moved => {}                      // to a nearer cell
//!         WalkTurn::Need(b) => hold.put(b, ..),      // a bucket that the step needs
//!     }
//! }
//! ```
#![tactic(auto)]

pub mod laws;
mod search;
mod walk;

pub use walk::{Start, Walk, WalkTurn};
