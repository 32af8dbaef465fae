//! The spatial grid: equal cubes that divide the range of coordinates, by which points and cells are put into buckets.
//!
//! ```
//! let grid = Grid::new(4)?;             // 1, 2, 4, 8 or 16 cubes along each axis
//! let bucket = grid.bucket_of(p);       // below grid.count()
//! ```
#![tactic(auto)]

mod grid;

pub use grid::{BadGrid, Grid};
