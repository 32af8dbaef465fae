//! The text of a mesh, read again: its replies, points, cells and hull, and the one fault of a text that is of none.
//!
//! A text is the lines of a report without shapes and without an order block: `mesh3-out 1`, then four lists, each
//! behind a head with its word and how many lines follow, and `end`. The grammar stands in `specs/Grammar.antt`, the
//! faults in `specs/Faults.antt`.
//!
//! ```
//! match read_mesh(alloc, &bytes) {
//!     Ok(mesh) => ..,                              // replies; points, cells and hull, each in order
//!     Err(ReadRefused::Bad(fault)) => ..,          // its first wrong line, and why it is wrong
//!     Err(ReadRefused::Memory) => ..,
//! }
//! let mut reader = MeshReader::new(alloc);         // the same of a text that comes in pieces
//! reader = reader.take(&piece)?;                   // however it is cut
//! let mesh = reader.finish()?;
//! ```
#![tactic(auto)]

mod counted;
pub mod laws;
mod line;
mod mesh_file;
mod pieces;
pub mod place;
mod reader;
mod taken_bytes;

pub use mesh_file::{MeshFile, PackedMesh};
pub use pieces::{MeshReader, read_mesh};
