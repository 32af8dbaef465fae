//! Readings of texts, line by line: what a fault is, lines, fields, numbers and points, and what a reading is.
//!
//! Both readers, of edit files and of meshes, stand on it. A reading tells which line leads from where to where, why a
//! line is wrong where it stands, and where a text may end (`specs/Readings.antt`). So a text leads to an end or has
//! one fault, and not both.
//!
//! ```
//! let (line, rest) = first_line(&text)?;       // a line of a text, and what follows it
//! let point = point_of(line)?;                 // Field or Range where it is no point line
//! let (field, behind) = first_field(line);
//! let number = number_of(field)?;              // one above 2^40, or below 0, is given as 2^40
//! ```
#![tactic(auto)]

mod fault;
mod line;
mod scan;

pub use fault::{Fault, LineRefused, ReadRefused, Why};
pub use line::point_of;
pub use scan::{first_field, first_line, number_of, reads};
