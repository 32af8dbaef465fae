//! Which new cells lie across a facet from one another: those on one edge of the rim.
//!
//! What the table answers is a hint. No contract speaks of it.

use crate::corners::Face;
use crate::slots::short;
use std::alloc::{AllocError, Global};

/// An edge of a rim facet, by a number below 2^63 that differs for most edges, and the facet of the new cell on it.
#[derive(Clone, Copy)]
pub struct Edge {
    mixed: u64,
    number: usize,
}

/// A facet of a cell in a slot, by its number.
#[derive(Clone, Copy)]
pub struct HalfFacet {
    pub place: usize,
    pub number: usize,
}

/// The three edges of a facet. The cell of the facet and the point with key p has a facet on each.
pub fn edges_of(facet: &Face, p: u64) -> [Edge; 3] {
    let (a, b, c) = (facet.x, facet.y, facet.z);
    [
        Edge::new(b, c, (p < a) as usize),
        Edge::new(a, c, 1 + (p < b) as usize),
        Edge::new(a, b, 2 + (p < c) as usize),
    ]
}

/// The number of the facet itself in the cell of it and p: how many of its points are below p.
pub fn number_under(facet: &Face, p: u64) -> usize {
    (facet.x < p) as usize + (facet.y < p) as usize + (facet.z < p) as usize
}

/// A facet by itself, as an edge is, and its number in a cell.
pub fn whole_facet(facet: &Face, number: usize) -> Edge {
    Edge::new(
        facet.x | facet.z << 42,
        facet.y | (facet.z >> 22) << 42,
        number,
    )
}

// An edge, and the facet that came to it last: four times its place, and its number. It counts where above that stands
// the stamp of the table.
#[derive(Clone, Copy)]
struct Entry {
    mixed: u64,
    half_facet: u64,
}

// An entry that does not count.
const EMPTY: Entry = Entry {
    mixed: 0,
    half_facet: 0,
};

// In a number of 64 bits the last, and the lower half.
const LAST: u64 = 9_223_372_036_854_775_808;

const LOW: u64 = 4_294_967_295;

/// The facets of new cells by their edges, scattered over a list whose length is a power of two.
#[derive(Drop)]
pub struct Edges {
    entries: Vec<Entry>,
    stamp: u64,
}

impl Edges {
    /// An empty table.
    pub fn new(alloc: Global) -> Edges {
        Edges {
            entries: Vec::new(alloc),
            stamp: 0,
        }
    }

    /// Empties the table, and sees to it that it is more than twice as long as there are edges of so many facets.
    pub fn make_room(&mut self, facets: usize) -> Result<(), AllocError> {
        self.stamp = self.stamp.wrapping_add(1) & LOW;
        let most = facets.saturating_mul(4);
        if self.entries.len() >= most && self.entries.len() > 0 {
            return Ok(());
        }
        for _ in self.entries.len()..length_for(most) {
            self.entries.push(EMPTY)?;
        }
        Ok(())
    }

    /// The facet that waits on the edge, or this one itself, where none does; then this one waits. Whether one waits is
    /// nothing that a processor could guess, so no branch is taken on it.
    pub fn meet(&mut self, edge: &Edge, place: usize) -> HalfFacet {
        let own = short(place << 2 | edge.number) as u64;
        let mask = self.entries.len().wrapping_sub(1);
        let mut at = (edge.mixed >> 32) as usize & mask;
        for _ in 0..self.entries.len() {
            if at >= self.entries.len() {
                break;
            }
            let entry = self.entries[at];
            let past = (entry.half_facet >> 32) ^ self.stamp;
            let other = entry.mixed ^ edge.mixed;
            if other.wrapping_sub(1) | 0u64.wrapping_sub(past) >= LAST {
                let waits = 0u64.wrapping_sub(past.wrapping_sub(1) >> 63);
                self.entries[at] = Entry {
                    mixed: edge.mixed,
                    half_facet: self.stamp << 32 | own,
                };
                return HalfFacet::of((entry.half_facet & waits | own & !waits) & LOW);
            }
            at = at.wrapping_add(1) & mask;
        }
        edge.half_facet(place)
    }
}

impl HalfFacet {
    // The facet of a number of an entry.
    fn of(number: u64) -> HalfFacet {
        HalfFacet {
            place: (number >> 2) as usize,
            number: (number & 3) as usize,
        }
    }
}

// The least power of two from 256 on that is at least this.
fn length_for(most: usize) -> usize {
    let mut length: usize = 256;
    for _ in 0..32 {
        if length < most {
            length = length.saturating_mul(2);
        }
    }
    length
}

impl Edge {
    fn new(first: u64, second: u64, number: usize) -> Edge {
        let mixed = first
            .wrapping_mul(0x9E3779B97F4A7C15)
            .wrapping_add(second.wrapping_mul(0xC2B2AE3D27D4EB4F));
        Edge {
            mixed: mixed >> 1,
            number,
        }
    }

    /// The facet on it of the new cell in a slot.
    pub fn half_facet(&self, place: usize) -> HalfFacet {
        HalfFacet {
            place,
            number: self.number,
        }
    }
}
