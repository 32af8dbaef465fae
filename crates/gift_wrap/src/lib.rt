//! The hole that a taken point leaves, filled by gift wrapping: from its rim, cell by cell.
//!
//! The cells that come where a point is taken are those that it takes away from the complex of the points near it: of
//! any solid set between its link and the rest. No more is needed for that than the cells at the point: their triples
//! against it bound the hole, and behind each triple lies the cell of the point outside of whose sphere the others lie.
//! What a wrap has found is exactly right; where the point has an Open cell, or there is too much to look at, it gives
//! no answer. `docs/GEOMETRY.md` tells the laws. The definitions stand in `specs/`.
//!
//! ```
//! let star = cells_once(star);                            // the cells at v, each once
//! let near = points_but(alloc, &star, v)?;                // its link, ascending; it is to be solid
//! let found = cells_wrapped(alloc, &near, v, &star)?;     // the cells that come, or none: then they are dug for
//! ```
#![tactic(auto)]

mod apex;
mod ball;
pub mod laws;
mod near;
mod wrap;

pub use near::{cells_once, points_but};
pub use wrap::cells_wrapped;
