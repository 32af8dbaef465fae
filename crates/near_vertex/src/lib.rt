//! The nearest point of a set to a place, by a walk from point to point over the cells of the buckets in hand.
//!
//! A walk stands at a point and goes to the first of the points that share a cell with it, by distance and then key,
//! until none comes before its own. That is the nearest point of the whole set. It takes no memory.
//!
//! ```
//! let p = nearest(&hold, q);                        // every bucket in hand
//! match walk.step(&hold) {
//!     NearTurn::Here(p) => return p,                // the nearest point
//!     NearTurn::Moved => {}                         // to a point that comes before
//!     NearTurn::Need(b) => hold.put(b, ..),         // the bucket of the point where it stands
//! }
//! ```
#![tactic(auto)]

mod answers;
pub mod laws;
mod search;
mod walk;

pub use answers::nearest_to_each;
pub use walk::{NearStart, NearTurn, NearWalk, nearest};
