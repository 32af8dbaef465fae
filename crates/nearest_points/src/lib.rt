//! The nearest of some points to a place: by distance, and among those as near by the least key.
#![tactic(auto)]

mod answers;
mod search;

pub use answers::Near;
pub use search::{first_among, square_from};
