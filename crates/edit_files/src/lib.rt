//! Edit files: the points, edits, radii and queries that a text names, and the one fault of a text that names none.
//!
//! A text is lines: `mesh3 1`, `points`, point lines `X Y Z`, `edits`, edit lines `+ X Y Z` and `- X Y Z`, `radii`,
//! radius lines `R`, and `end`. From `mesh3 2` on edit lines `= X Y Z X Y Z` move points, from `mesh3 3` on radii count
//! sixteenths, and in `mesh3 4` the word `queries` and point lines stand before `end`. The versions are a table in
//! `specs/Content.antt`; the grammar stands in `specs/Grammar.antt`, and the faults in `specs/Faults.antt`.
//!
//! ```
//! match read_file(alloc, &bytes) {
//!     Ok(file) => ..,                              // version, points, edits, radii, queries; `file.lines()`
//!     Err(ReadRefused::Bad(fault)) => ..,          // its first bad line, and why it is bad
//!     Err(ReadRefused::Memory) => ..,
//! }
//! let text = file_text(alloc, &generate(alloc, 2000, 7)?)?;
//! let (line, rest) = first_line(&text)?;       // for readers of other texts: lines, fields, numbers and points
//! ```
#![tactic(auto)]

mod file;
mod generator;
pub mod laws;
mod line;
pub mod place;
mod reader;
mod version;
mod writing;

pub use file::{File, Lines};
pub use generator::generate;
pub use reader::{LINE_LIMIT, QUERY_LIMIT, RADIUS_LIMIT, read_file, read_file_up_to};
pub use text_readings::{Fault, ReadRefused, Why, first_field, first_line, number_of, point_of};
pub use version::Version;
pub use writing::file_text;
