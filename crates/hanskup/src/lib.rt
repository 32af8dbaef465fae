//! Hanskup: the Delaunay triangulation of points in space, and its alpha complexes, from one crate.
//!
//! Points have whole coordinates from 0 to 16383; ties are broken by one fixed rule; all is exact and proved. This
//! crate passes on what a program needs of the library. The program `tour` calls it, and runs as it stands: the sample
//! below has its lines, and CALLING.md beside has it whole, with the contracts.
//!
//! | I want | call |
//! |---|---|
//! | a point; the side of a plane, of a sphere | `Point::new`; `orient`, `outside` |
//! | a mesh of points | `find_four`, then `begin_cloud`, which puts them in at once |
//! | a mesh of four points | `opening_points`, `begin`, then `apply` of `Edit::Add` for each other point |
//! | to add, take or move a point | `apply`, which answers the reply and the number of the entry |
//! | the cells; the points; what was done | `complex`, `points`, `history`; at the end of a mesh `into_parts` |
//! | where a place lies; the nearest point | `locate`; `nearest`, of many places `nearest_to_each` |
//! | edges and triangles with their cells | `faces` of the cells; by one thread `few_faces` |
//! | an alpha complex, with kinds of faces | `alpha`; for several alphas `alphas`, then `Alphas::shape` |
//! | the least alpha of every face | `thresholds`, and `put_steps` for its text |
//! | solid parts, their boundaries, the least alpha for so many | `parts`, `boundary`, `least_alpha` |
//! | the cells of a cloud, without a mesh | `complex_of_points`; `complex_by_threads` |
//! | to judge cells from elsewhere | `read_mesh` of a report, in pieces `MeshReader`; `check`, `verdict_text` |
//! | all that the program does, over ends of your own | `run` |
//! | several threads on one mesh | `table::MeshTable`: `open`, `split`, `try_edit`, `try_snapshot`, `close` |
//! | lists of edits by workers | `table::deal`, `table::run_edits` |
//! | the mesh that a table is opened with, and its buckets | `buckets::begin`, `buckets::begin_cloud_by_threads` |
//! | texts | `mesh_text`, `shape_text`, `off_text`, and `put_report` to a sink |
//! | edit files, of all versions or up to one | `read_file`, `read_file_up_to`, `file_text` |
//!
//! A mesh has one owner: who has it edits it, and who is lent it looks. An alpha is a squared radius in sixteenths of
//! the square of the unit of the grid.
//!
//! ```
//! let four = opening_points(&corners)?;                   // with their tags; NotSolid: all lie in one plane
//! Ok(begin(alloc, four)?)
//! let receipt = apply(alloc, mesh, tag, edit)?;           // Inserted, Duplicate, .. and the number of the entry
//! let cells = complex(alloc, mesh)?;                      // sorted; triangles of the hull are Open cells
//! let faces = faces(rt, alloc, &cells)?;
//! let shape = alpha(rt, alloc, faces, 16 * radius)?;      // of a squared radius
//! ```
#![tactic(auto)]

pub mod buckets;
pub mod table;

pub use alpha_complex::{Alphas, Kind, Shape, alpha, alphas};
pub use alpha_steps::{Threshold, Thresholds, put_steps, thresholds};
pub use bucket_grid::{BadGrid, Grid};
pub use byte_ends::{Failed, MemSink, MemSource, Sink, Source, StdSink, StdSource};
pub use cell_lists::{Places, QuadList};
pub use cloud_cells::complex_by_threads;
pub use delaunay_cli::{Run, run};
pub use edit_files::{File, ReadRefused, Version, file_text, read_file, read_file_up_to};
pub use edit_gates::{Gate, Moment, OpenGate};
pub use edit_history::{Edit, Entry, NotSolid, PointSet, Receipt, Reply, find_four};
pub use exact_orient::{collinear, orient};
pub use exact_sphere::sphere;
pub use face_list::{Faces, faces, few_faces};
pub use linked_mesh::{
    LinkedMesh, apply, begin, begin_cloud, complex, count, has_point, history, into_parts, locate,
    nearest, nearest_to_each, points,
};
pub use mesh_check::{Flaw, Verdict, check, verdict_text};
pub use mesh_files::{
    MeshFile, MeshReader, PackedMesh, Report, mesh_text, off_text, put_report, read_mesh,
    shape_text, summary_text,
};
pub use near_texts::put_near;
pub use nearest_points::Near;
pub use net_digs::complex_of_points;
pub use one_mesh::opening_points;
pub use point_order::{Cell, Facet, OutOfRange, Pair, Point, Quad, Tri};
pub use solid_parts::{Part, PartSize, boundary, least_alpha, parts, put_parts, sizes};
pub use sphere_ties::{conflict, outside};
