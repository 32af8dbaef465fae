//! Edits that are made in parts of a complex.
#![tactic(auto)]

mod change;
pub mod laws;
mod take;
mod work;

pub use change::{try_add, try_change, try_take};
pub use take::take_here;
pub use work::make_lines;
