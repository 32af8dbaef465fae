//! The net: cells in slots, with free slots, links across facets, and blocks of space to which pages belong.
//!
//! Points are ordered along a curve and cut into blocks by a tree, blocks are dealt to groups, and hints lead from a
//! place to a cell near it. Contracts see a net as its slots.
//!
//! ```
//! let mut net = Net::of_cells(alloc, &cells)?;
//! let spot = net.spot_in(place);                   // the cell of a slot, if it has one
//! let half_facet = net.across(&spot, &facet, k, Reach::Whole);
//! let tree = Tree::of(alloc, &points)?;            // blocks of nearby points
//! ```
#![tactic(auto)]

mod curve;
mod deal;
mod hints;
mod homes;
mod net;
mod tree;

pub use deal::Deal;
pub use hints::Hints;
pub use net::Net;
pub use tree::Tree;
