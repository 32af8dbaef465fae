//! Which cells are likely to lie across facets from one another.
//!
//! What is noted here is a hint. No contract speaks of it. The cells are in order, so the two of a facet stand near one
//! another for most, and few facets wait at a time.

use point_order::{Cell, Facet};
use std::alloc::{AllocError, Global};

// A facet, by the cell that was met first on it and its place there.
#[derive(Clone, Copy)]
struct Door {
    cell: u32,
    facet: u32,
}

// No cell was here.
const NOBODY: Door = Door {
    cell: u32::MAX,
    facet: 0,
};

// The facet that was here has met its other cell.
const GONE: Door = Door {
    cell: u32::MAX,
    facet: 1,
};

/// The number of the cell that is likely to lie across each facet of each cell.
#[derive(Drop)]
pub(crate) struct Hints {
    across: Vec<[u32; 4]>,
}

impl Hints {
    /// The hint for a facet of a cell.
    pub(crate) fn at(&self, cell: usize, facet: usize) -> usize {
        if cell < self.across.len() && facet < 4 {
            self.across[cell][facet] as usize
        } else {
            0
        }
    }

    // Notes what lies across a facet of a cell.
    fn note(&mut self, door: Door, other: u32) {
        let cell = door.cell as usize;
        let facet = door.facet as usize;
        if cell < self.across.len() && facet < 4 {
            self.across[cell][facet] = other;
        }
    }
}

// The doors that wait, each at the first free place from that of its facet's number on; and how many places are taken.
#[derive(Drop)]
struct Waiting {
    doors: Vec<Door>,
    taken: usize,
}

// The least power of two from 256 on that is at least this.
fn length_for(most: usize) -> usize {
    let mut length: usize = 256;
    for _ in 0..40 {
        if length < most {
            length = length.saturating_mul(2);
        }
    }
    length
}

// A number that differs for most facets.
fn scattered(facet: &Facet) -> usize {
    match facet {
        Facet::Three(tri) => {
            let (a, b, c) = tri.corners();
            let mixed = a.key().wrapping_mul(0x9E3779B97F4A7C15)
                ^ b.key().wrapping_mul(0xC2B2AE3D27D4EB4F)
                ^ c.key().wrapping_mul(0x165667B19E3779F9);
            (mixed >> 24) as usize
        }
        Facet::Two(_) => 0,
    }
}

// Whether the facet of the door is this one.
fn is_same(cells: &[Cell], door: Door, facet: &Facet) -> bool {
    let number = door.cell as usize;
    let k = door.facet as usize;
    if number < cells.len() && k < 4 {
        cells[number].facets()[k].is_same(facet)
    } else {
        false
    }
}

// The other door of the facet, if it waits: from now on it does not. Else this one waits for it.
fn meet(waiting: &mut Waiting, cells: &[Cell], facet: &Facet, door: Door) -> Option<Door> {
    let length = waiting.doors.len();
    let mask = length.wrapping_sub(1);
    let mut at = scattered(facet) & mask;
    for _ in 0..length {
        if at >= waiting.doors.len() {
            return None;
        }
        let other = waiting.doors[at];
        if other.cell == u32::MAX && other.facet == 0 {
            waiting.doors[at] = door;
            waiting.taken = waiting.taken.saturating_add(1);
            return None;
        }
        if is_same(cells, other, facet) {
            waiting.doors[at] = GONE;
            return Some(other);
        }
        at = at.wrapping_add(1) & mask;
    }
    None
}

// Lets the facet of a door wait in a room of its own.
fn wait_again(waiting: &mut Waiting, cells: &[Cell], door: Door) {
    let number = door.cell as usize;
    let k = door.facet as usize;
    if number < cells.len() && k < 4 {
        let _ = meet(waiting, cells, &cells[number].facets()[k], door);
    }
}

// How many doors wait.
fn count_of(doors: &[Door]) -> usize {
    let mut count: usize = 0;
    for door in doors {
        if door.cell != u32::MAX {
            count = count.saturating_add(1);
        }
    }
    count
}

// The doors that wait, with as many places again as they need.
fn renewed(alloc: Global, old: &[Door], cells: &[Cell]) -> Result<Waiting, AllocError> {
    let doors = vec![in alloc; NOBODY; length_for(count_of(old).saturating_mul(4))]?;
    let mut waiting = Waiting { doors, taken: 0 };
    for door in old {
        wait_again(&mut waiting, cells, *door);
    }
    Ok(waiting)
}

// Meets the facets of a cell that are triples.
fn meet_all(hints: &mut Hints, waiting: &mut Waiting, cells: &[Cell], number: usize) {
    if number >= cells.len() {
        return;
    }
    let facets = cells[number].facets();
    for k in 0..4 {
        if let Facet::Three(_) = facets[k] {
            let door = Door {
                cell: u32::try_from(number).unwrap_or(u32::MAX),
                facet: k as u32,
            };
            if let Some(other) = meet(waiting, cells, &facets[k], door) {
                hints.note(door, other.cell);
                hints.note(other, door.cell);
            }
        }
    }
}

/// The hints for some cells.
///
/// # Errors
/// Want of memory.
pub(crate) fn hints_of(alloc: Global, cells: &[Cell]) -> Result<Hints, AllocError> {
    let across = vec![in alloc; [0; 4]; cells.len()]?;
    let mut hints = Hints { across };
    let mut waiting = renewed(alloc, &[], cells)?;
    for number in 0..cells.len() {
        if waiting.taken.saturating_add(4) > waiting.doors.len() / 2 {
            waiting = renewed(alloc, &waiting.doors, cells)?;
        }
        meet_all(&mut hints, &mut waiting, cells, number);
    }
    Ok(hints)
}
