//! Insertion: what a new point changes, from buckets that come in hand, and in a mesh with every bucket in hand.
//!
//! A mesh begins with four independent points. A new point's first cell in conflict is found by a walk (`Search`), the
//! others by a dig of `cavity` (`Arrival`), by turns where buckets come one by one. The definitions stand in `specs/`.
//!
//! ```
//! // four independent points with tags
//! let mesh = open_mesh(alloc, Grid::new(4)?, [(0, a), (1, b), (2, c), (3, d)])?;
//! let cell = cell_in_conflict(mesh.hold(), p);                // some cell that the new point p takes away
//! ```
#![tactic(auto)]

mod arrival;
pub mod laws;
mod opening;
mod search;

pub use arrival::{Arrival, ArrivalTurn};
pub use opening::open_mesh;
pub use search::{Search, SearchTurn, cell_in_conflict};
