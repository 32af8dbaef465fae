//! Workers: the lines of a file are dealt to them by their points, in segments, and each makes its own on one table.
//!
//! ```
//! let four = find_four(&file.points)?;                     // a mesh has begun with these four lines
//! let lists = deal(alloc, &file, four, 8)?;                // eight lists a segment: lines of one point in one of them
//! let mesh = run_edits(rt, alloc, mesh, &lists, &gate)?;   // eight threads a segment; what was busy too often ends it
//! let kept = mesh.count();                                 // each line of the lists stands in the history once
//! let mesh = run_in_order(alloc, mesh, 9, &edits, &gate)?; // one worker, on a mesh without buckets: tags from 9 on
//! ```
#![tactic(auto)]

mod alone;
mod arranging;
mod lists;
mod rounds;
mod running;
mod working;

pub use alone::run_in_order;
pub use edit_lists::{List, Lists, Segment, deal, deal_edits};
pub use lists::Left;
pub use running::run_edits;
pub use working::{share_a_point, work};
