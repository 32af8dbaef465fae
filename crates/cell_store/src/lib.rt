//! The mesh as buckets of a grid, and holds of the buckets in hand.
//!
//! The definitions stand in `specs/`: the bucket of a point, the share that a bucket has of a history, when a hold
//! stands for a history and when it shows a set, and which buckets an edit touches.
//!
//! ```
//! let b = hold.grid().bucket_of(p);
//! hold.put(b, bucket);                              // in hand from now on
//! let spot = hold.spot_of(&cell);                   // at hand: with the place where it stands
//! match hold.across_spot(&spot, &facet) {           // `across` does the same for cells by value
//!     SpotAcross::Spot(other) => ..,                // the other cell on the facet
//!     SpotAcross::Need(b) => ..,                    // first this bucket is to be in hand
//! }
//! let other = hold.cell_across(&cell, &facet);      // a point of the facet lies in a bucket in hand
//! if let Some(b) = hold.missing_bucket(&gone) {     // none: the buckets of all their points are in hand
//!     ..
//! }
//! hold.reserve(alloc, &gone, &fresh, p)?;           // all memory is taken here
//! hold.swap_cells(&gone, &fresh);
//! hold.push_entry(entry);
//! ```
#![tactic(auto)]

mod bucket;
mod exchanges;
mod gather;
mod hold;
pub mod laws;
mod mesh;
mod missing;
mod note;
mod room;
mod spot;
mod star;
mod whole;

pub use bucket::Bucket;
pub use bucket_grid::{BadGrid, Grid};
pub use cell_stars::{BucketCells, Star, StarCells, Steps};
pub use hold::Hold;
pub use mesh::Mesh;
pub use spot::{Spot, SpotAcross};
pub use star::Across;
