//! Lists of edits for workers: the lines of a file are dealt to them by their points, in segments.
//!
//! ```
//! let four = find_four(&file.points)?;            // a mesh begins with these four lines
//! let lists = deal(alloc, &file, four, 8)?;       // eight lists a segment: lines of one point in one of them
//! ```
#![tactic(auto)]

mod cutting;
mod dealing;
mod lists;

pub use dealing::{deal, deal_edits};
pub use lists::{List, Lists, Segment};
