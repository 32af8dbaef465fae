//! What a list of edits comes to, without a mesh: the reply to each edit, the points that are gone at its end, and
//! those that came.
//!
//! Replies and points are those of one thread that makes the edits one after another. Whether a take or a move is flat
//! is told by four independent points that stay; where one of them is taken or moved, four others are looked for.
//!
//! ```
//! let outcome = outcome_of(alloc, &set, &edits)?;       // the set stays as it is
//! for reply in &outcome.replies { .. }                   // in the order of the edits
//! ```
#![tactic(auto)]

mod anchors;
mod changes;
mod fold;
pub mod laws;

pub use fold::{Outcome, outcome_of};
