//! What a thread has at hand while it puts points in.

use crate::dig::Hole;
use crate::marking::Marks;
use cell_slots::Edges;
use std::alloc::Global;

/// The table of rim edges, the marks of slots, and the hole of a point, which are kept from point to point.
#[derive(Drop)]
pub struct Desk {
    pub edges: Edges,
    pub marks: Marks,
    pub hole: Hole,
}

impl Desk {
    /// An empty one.
    pub fn new(alloc: Global) -> Desk {
        Desk {
            edges: Edges::new(alloc),
            marks: Marks::new(alloc),
            hole: Hole::new(alloc),
        }
    }
}
