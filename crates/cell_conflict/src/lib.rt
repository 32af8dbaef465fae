//! Cells in conflict with a new point, judged from the buckets in hand.
//!
//! A new point is in conflict with exactly the cells that it takes away. A Full cell is judged by its own
//! points, an Open one by a mate, a point of the Full cell behind its triple. Walks and cavities stand on this.
//! The definitions stand in `specs/`.
//!
//! ```
//! let goes = is_in_conflict(&hold, &cell, p);        // whether the new point p takes the cell away
//! let first = conflict_among(&hold, b, p);           // some cell of bucket b that it takes away, if there is one
//! ```
#![tactic(auto)]

mod among;
mod judge;

pub use among::conflict_among;
pub use judge::{is_in_conflict, is_spot_in_conflict};
