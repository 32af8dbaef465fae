//! The text of the nearest points to queries.
#![tactic(auto)]

mod texts;

pub use texts::put_near;
