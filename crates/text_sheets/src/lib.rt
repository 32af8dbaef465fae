//! Text put piece by piece on a sheet, which goes into a sink a page at a time.
//!
//! ```
//! let mut sheet = Sheet::new(out);
//! put_title(&mut sheet, b"points", points.len());
//! for point in points {
//!     put_three(&mut sheet, x, y, z);
//! }
//! sheet.close()?;   // Failed where the sink failed, at any piece
//! ```
//!
//! A sheet takes no memory: digits and words wait on a page of 4,096 bytes. It remembers whether the sink failed, so
//! that what puts a text need not ask after each piece.
#![tactic(auto)]

pub mod indices;
pub mod lines;
mod page;
pub mod sheet;
pub mod ways;
pub mod whole;

pub use indices::{Indices, put_full_line, put_hull_line, put_indices};
pub use lines::{put_four, put_number, put_number_and, put_three, put_title};
pub use sheet::Sheet;
pub use ways::{Lines, put_beside, put_in_turn};
pub use whole::WholeText;
