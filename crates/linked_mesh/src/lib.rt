//! The mesh of one owner: the cells of a set of points in one net of slots, the points, and the history of edits.
//!
//! A mesh is seen as its history. Its cells stand in no buckets, and no other thread can take part.
//!
//! ```
//! let mut mesh = begin(alloc, [(0, a), (1, b), (2, c), (3, d)])?;  // independent points, with tags
//! let cloud = begin_cloud(alloc, &points, find_four(&points)?)?;   // all at once
//! let receipt = apply(alloc, &mut mesh, 4, Edit::Add(p))?;  // its number and its reply; less than 2^32 entries before
//! let cell = locate(&mesh, q);                              // a cell in conflict with q; none where it is a point
//! let near = nearest(&mesh, q);                             // without memory
//! let nears = nearest_to_each(alloc, &mesh, &queries)?;     // with the squares of their distances
//! let cells = complex(alloc, &mesh)?;                       // sorted
//! let (entries, cells) = into_parts(alloc, mesh)?;          // both, and the mesh is let go
//! ```
#![tactic(auto)]

mod answers;
mod mesh;
mod near;
mod opening;
mod set;
mod shift;
mod take;

pub use answers::nearest_to_each;
pub use edit_history::{Edit, Receipt, find_four};
pub use mesh::{
    LinkedMesh, apply, begin_cloud, complex, count, has_point, history, into_parts, locate,
    nearest, of_history, points,
};
pub use opening::begin;
pub use set::LinkedSet;
pub use shift::move_point;
pub use take::take_point;
