//! Cavities: the cells that a new point takes away, and those that it brings.
//!
//! The cells that a point takes away are one region, connected across facets. A `Dig` begins in one of them and looks
//! across the facets of each that it finds, over the buckets in hand, until it needs another bucket or is done. `fill`
//! then gives the cells. The definitions stand in `specs/`.
//!
//! ```
//! let mut dig = Dig::start(alloc, p, cell)?;      // the new point p takes the cell away
//! loop {
//!     match dig.advance(alloc, &hold)? {
//!         DigTurn::Done => break,
//!         DigTurn::Need(b) => hold.put(b, ..),    // a bucket that the insertion has to have
//!     }
//! }
//! let Fresh { gone, fresh } = fill(alloc, &dig)?; // each cell once
//! ```
#![tactic(auto)]

mod cell_table;
mod compose;
mod dig;
mod explore;
mod fill_hole;
mod judged;
pub mod laws;

pub use compose::composed;
pub use dig::{Dig, DigTurn};
pub use fill_hole::{Fresh, fill};
