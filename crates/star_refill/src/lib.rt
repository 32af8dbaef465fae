//! The cells that come where a point is taken, told from the cells at it and around it.
#![tactic(auto)]

mod coming;

pub use coming::{cells_coming, cells_for_star, is_solid};
