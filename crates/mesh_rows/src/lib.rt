//! Meshes and their faces as rows of numbers, for callers who keep plain arrays: places in, and out of them the points,
//! the cells by numbers of points, what lies across their facets, the hull, the least alphas of all faces, and the
//! solid parts.
//!
//! It starts no threads. `delaunay_c` passes it on to C.
//!
//! ```
//! let made = mesh_of(alloc, &places)?;       // places in any order, of which some may be equal
//! let sizes = mesh_sizes(&made);
//! if !lacks_mesh_room(&sizes, points, cells, neighbours, hull) {
//!     put_mesh(made, points, cells, neighbours, hull);
//! }
//! let levels = levels_of(alloc, &places)?;   // every face with its least alphas
//! let both = filtered_of(alloc, &places)?;   // the mesh and its faces, by one triangulation
//! let least = least_alpha_of(alloc, &places, 1)?;     // at which all points are in one solid part
//! let parts = parts_of(alloc, &places, 4800)?;        // the solid parts at a squared radius of 300
//! ```
#![tactic(auto)]

mod across;
mod around;
mod cloud;
mod filtered;
mod hints;
mod levels;
mod mesh;
mod numbers;
mod parts;
mod ranks;
mod room;
mod rows;
mod stop;

pub use cloud::{are_few, are_solid, point_at, set_of};
pub use filtered::{Filtered, filtered_of};
pub use levels::{Levels, levels_of};
pub use mesh::{Made, mesh_of, rows_of};
pub use numbers::place_at;
pub use parts::{
    PartSizes, Parts, lacks_part_room, least_alpha_of, part_sizes, parts_of, put_parts,
};
pub use room::{face_sizes, lacks_face_room, lacks_mesh_room, mesh_sizes, put_faces, put_mesh};
pub use rows::{CellRow, EdgeRow, FaceSizes, MeshSizes, Place, TriangleRow};
pub use stop::Stop;
