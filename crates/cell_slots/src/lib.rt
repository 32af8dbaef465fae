//! Cells in numbered slots, in one list or in pages of 128, each slot with where the cells across its facets are likely
//! to stand. Contracts see slots as their cells; nothing that is likely is believed before it is looked at.
//!
//! ```
//! let slots = Slots::of_list(alloc, list);        // or by pages: `add` a page, `remove` one
//! let cell = cell_at(&slots, i);                  // the cell of a slot, if it has one
//! let half_facet = other_across(&slots, &cell, &facet); // the slot of the other cell on a facet
//! ```
#![tactic(auto)]

mod corners;
mod edges;
mod packed;
mod paged;
mod pages;
mod reach;
mod slots;
mod spot;

pub use corners::{Corners, Face, INFINITE, point_of};
pub use edges::{Edges, HalfFacet, edges_of, number_under, whole_facet};
pub use packed::Packed;
pub use paged::Slots;
pub use pages::{NONE, PAGE, Page};
pub use reach::Reach;
pub use slots::{
    Slot, cell_at, clear_slot, fill_slot, gone_across, other_across, other_at, packed_of,
    push_cell, push_free, put_in, short,
};
pub use spot::Spot;
