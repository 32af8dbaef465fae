//! The mesh of one thread: it begins with four points, takes edits one by one, and gives its complex and its history.
//!
//! A mesh is seen as its grid and its history.
//!
//! ```
//! let mut mesh = begin(alloc, grid_for(9000), [(0, a), (1, b), (2, c), (3, d)])?;  // independent points, with tags
//! let cloud = begin_cloud(alloc, grid_for(points.len()), &points, find_four(&points)?)?;  // all at once
//! let receipt = apply(alloc, &mut mesh, 4, Edit::Add(p))?;  // its number and its reply; less than 2^32 entries before
//! let cells = complex(alloc, &mesh)?;                       // sorted
//! let (entries, cells) = into_parts(alloc, mesh)?;          // both, and the mesh is let go as it is read
//! ```
#![tactic(auto)]

mod clouds;
mod edits;
mod grids;
mod lists;
mod opening;
mod place;

pub use clouds::{begin_cloud, begin_cloud_by_threads};
pub use edit_history::{NotSolid, Receipt, find_four};
pub use edits::{apply, begin};
pub use grids::grid_for;
pub use lists::{complex, history, into_parts, points};
pub use opening::opening_points;
pub use place::locate;
