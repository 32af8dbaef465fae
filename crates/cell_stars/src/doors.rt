//! The links of all cells of a bucket at once. No clause speaks of them.

use crate::links::{Around4, NONE};
use crate::vertices::hash_of;
use point_order::{Cell, Point};
use std::alloc::{AllocError, Global};

// A facet of a cell that waits for the other cell on it: a number for the facet, the place of the cell, and its side.
#[derive(Clone, Copy)]
struct Door {
    facet: u64,
    place: u32,
    side: usize,
}

// In place of one.
const OPEN: Door = Door {
    facet: 0,
    place: NONE,
    side: 0,
};

// A facet is looked for in so many entries from its first one on.
const TURNS: usize = 8;

// So many entries there are for each cell.
const ENTRIES: usize = 4;

// For the infinite vertex.
const INFINITE: u64 = 0x6A09_E667_F3BC_C909;

// A number for the point, of which all bits depend on all of its.
fn mixed(p: Point) -> u64 {
    let half = hash_of(p);
    (half ^ p.key()).wrapping_mul(0xC2B2_AE3D_27D4_EB4F)
}

// The sums of three of the four numbers, each without one of them.
fn without_each(a: u64, b: u64, c: u64, d: u64) -> [u64; 4] {
    let sum = a.wrapping_add(b).wrapping_add(c).wrapping_add(d);
    [
        sum.wrapping_sub(a),
        sum.wrapping_sub(b),
        sum.wrapping_sub(c),
        sum.wrapping_sub(d),
    ]
}

// Numbers for the facets of the cell, in their order. A facet has the same number in both of its cells, and hardly
// another has it.
fn facets_of(cell: &Cell) -> [u64; 4] {
    match cell {
        Cell::Full(quad) => {
            let (a, b, c, d) = quad.corners();
            without_each(mixed(a), mixed(b), mixed(c), mixed(d))
        }
        Cell::Open(tri) => {
            let (a, b, c) = tri.corners();
            without_each(mixed(a), mixed(b), mixed(c), INFINITE)
        }
    }
}

// The facets that wait. One that finds no entry in its turns is left out.
#[derive(Drop)]
struct Doors {
    count: usize,
    entries: Vec<Door>,
}

impl Doors {
    // None, for so many cells.
    fn new(alloc: Global, cells: usize) -> Result<Doors, AllocError> {
        let count = cells.saturating_mul(ENTRIES);
        let mut entries = Vec::new(alloc);
        entries.resize(count.saturating_add(TURNS), OPEN)?;
        Ok(Doors { count, entries })
    }

    // The entry of the facet with which a search for it begins.
    fn first_entry(&self, facet: u64) -> usize {
        ((facet >> 32).wrapping_mul(self.count as u64) >> 32) as usize
    }

    // What waits at the facet, which waits no more then. Else this one does.
    fn meet(&mut self, door: Door) -> Option<Door> {
        let first = self.first_entry(door.facet);
        let mut vacant = None;
        for turn in 0..TURNS {
            let at = first.saturating_add(turn);
            let entry = self.entries.get_mut(at)?;
            if entry.place == NONE {
                vacant = Some(at);
            } else if entry.facet == door.facet {
                let met = *entry;
                *entry = OPEN;
                return Some(met);
            }
        }
        if let Some(entry) = self.entries.get_mut(vacant?) {
            *entry = door;
        }
        None
    }
}

// Writes the place across the side of the cell at a place.
fn set(list: &mut [Around4], place: u32, side: usize, other: u32) {
    if let Some(around) = list.get_mut(place as usize) {
        if side < 4 {
            around[side] = other;
        }
    }
}

// Links the cell at the place across the side with the one that waits there, if it does.
fn join(list: &mut [Around4], doors: &mut Doors, facet: u64, place: u32, side: usize) {
    let door = Door { facet, place, side };
    if let Some(met) = doors.meet(door) {
        set(list, met.place, met.side, place);
        set(list, place, side, met.place);
    }
}

/// The links of cells, where each stands at its place in the list.
///
/// # Errors
/// Want of memory.
pub(crate) fn links_of(alloc: Global, cells: &[Cell]) -> Result<Vec<Around4>, AllocError> {
    let mut list = Vec::new(alloc);
    list.resize(cells.len(), [NONE; 4])?;
    let mut doors = Doors::new(alloc, cells.len())?;
    for (at, cell) in cells.iter().enumerate() {
        let place = u32::try_from(at).unwrap_or(NONE);
        for (side, facet) in facets_of(cell).iter().enumerate() {
            join(&mut list, &mut doors, *facet, place, side);
        }
    }
    Ok(list)
}
