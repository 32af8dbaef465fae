//! The mesh over buckets, which a table of many threads is opened with. A cell stands in the bucket of each of its
//! points, so that whoever has one bucket in hand sees all that touches it. For one owner the mesh of the first page
//! makes an edit in a third of the instructions.

pub use cell_store::{Hold, Mesh};
pub use near_vertex::{NearStart, NearTurn, NearWalk, nearest, nearest_to_each};
pub use one_mesh::{
    apply, begin, begin_cloud, begin_cloud_by_threads, complex, grid_for, history, into_parts,
    locate, points,
};
