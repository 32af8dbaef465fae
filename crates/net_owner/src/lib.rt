//! The cells of one owner in a net: points come and go, and places are looked for.
//!
//! ```
//! let mut linked = LinkedCells::of_points(alloc, &points)?;  // ascending solid points let arrival =
//! linked.add_point(alloc, p)?;                 // what the new point changed; take_back lets it go again let near =
//! linked.nearest(q);                              // the nearest point; none where a star has too many cells
//! ```
#![tactic(auto)]

mod added;
mod aim;
mod around;
mod linked;
mod looks;
mod owned;
mod part;

pub use added::Arrival;
pub use owned::{LinkedCells, OpenStar};
