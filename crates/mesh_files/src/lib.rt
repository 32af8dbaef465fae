//! The texts that the program writes; and that of a mesh, read again.
//!
//! ```
//! // the points ascend; each radius stands beside its shape
//! let report = Report { replies, points, cells: &cells, shapes, order: None };
//! put_report(&mut out, &report)?;               // takes no memory
//! put_report_by_threads(rt, alloc, &mut out, &report)?;  // the same, in less time
//! let text = mesh_text(alloc, &report)?;        // the same text, in memory
//! let block = shape_text(alloc, 300, &shape)?;  // the block of one radius
//! let counts = summary_text(alloc, &report)?;
//! let surface = off_text(alloc, &points, &triangles)?;
//! let mesh = read_mesh(alloc, &text)?;          // of a report without shapes and order
//! ```
#![tactic(auto)]

pub mod laws;
pub mod off;
pub mod report;
mod rows;
mod shapes;
mod summary;

pub use mesh_reader::{MeshFile, MeshReader, PackedMesh, read_mesh};
pub use off::{off_text, put_off};
pub use report::{Report, mesh_text, put_report, put_report_by_threads};
pub use shapes::shape_text;
pub use summary::summary_text;
