//! Slots of cells that stand near places: where walks begin. No contract speaks of them.

use crate::net::Net;
use cell_slots::point_of;
use point_order::{Cell, Point};
use std::alloc::{AllocError, Global};

// In the place of a slot, where none is known.
const NONE: u32 = u32::MAX;

// How many cubes the grids have at the most: 1, 8, 64 and so on up to 32 to the third.
const MOST: usize = 37_449;

/// Of each cube of grids, the coarsest first, the slot of the last cell that was made there. There are about as many
/// cubes as points.
#[derive(Drop)]
pub struct Hints {
    slots: Vec<u32>,
}

// How many cubes stand before those of the grid of 8^bits cubes.
fn cubes_before(bits: u32) -> usize {
    match bits {
        0 => 0,
        1 => 1,
        2 => 9,
        3 => 73,
        4 => 585,
        _ => 4681,
    }
}

// The cube of a point in the grid of 8^bits cubes.
fn cube_of(p: Point, bits: u32) -> usize {
    if bits > 5 {
        return MOST;
    }
    let low = 14 - bits;
    let key = p.key();
    let x = (key >> 28) >> low;
    let y = ((key >> 14) & 16383) >> low;
    let z = (key & 16383) >> low;
    let cube = (x << (2 * bits)) | (y << bits) | z;
    cubes_before(bits).saturating_add(cube as usize)
}

// Whether two numbers differ by less than a third.
fn are_near(a: u64, b: u64, far: u64) -> bool {
    if a < b { b - a < far } else { a - b < far }
}

// Whether two points are not farther from one another than cubes of a grid that are beside one another.
fn are_beside(p: Point, q: Point, bits: u32) -> bool {
    if bits > 5 {
        return false;
    }
    let far = 32_768 >> bits;
    let (p, q) = (p.key(), q.key());
    are_near(p >> 28, q >> 28, far)
        && are_near((p >> 14) & 16383, (q >> 14) & 16383, far)
        && are_near(p & 16383, q & 16383, far)
}

// The first point of a cell.
fn first_point(cell: &Cell) -> Option<Point> {
    cell.points().first().copied()
}

// The first point of the cell in a slot.
fn point_at(net: &Net, slot: usize) -> Option<Point> {
    let spot = net.spot_in(slot)?;
    Some(point_of(spot.cell().a))
}

impl Hints {
    // Makes a few cubes more, where there are less than the most.
    fn grow(&mut self) -> Result<(), AllocError> {
        for _ in 0..2 {
            if self.slots.len() < MOST {
                self.slots.push(NONE)?;
            }
        }
        Ok(())
    }

    /// Notes the slot of a cell at a point. Where memory is wanting, there are no more cubes than before.
    pub fn note(&mut self, p: Point, slot: usize) {
        let _ = self.grow();
        let slot = u32::try_from(slot).unwrap_or(NONE);
        for bits in 0..6 {
            let at = cube_of(p, bits);
            if at < self.slots.len() {
                self.slots[at] = slot;
            }
        }
    }

    // The slot that was noted for the cube of a point.
    fn noted(&self, p: Point, bits: u32) -> usize {
        let at = cube_of(p, bits);
        if at < self.slots.len() {
            self.slots[at] as usize
        } else {
            NONE as usize
        }
    }

    /// Notes the slot of the first of some cells, if there is one.
    pub fn note_first(&mut self, cells: &[Cell], slot: usize) {
        if let Some(cell) = cells.first() {
            if let Some(p) = first_point(cell) {
                self.note(p, slot);
            }
        }
    }

    /// The hints of all cells of a net.
    pub fn of_net(alloc: Global, net: &Net) -> Hints {
        let mut hints = Hints {
            slots: Vec::new(alloc),
        };
        for slot in 0..net.len() {
            if let Some(p) = point_at(net, slot) {
                hints.note(p, slot);
            }
        }
        hints
    }

    /// Where a walk to a point is to begin: at a cell near it, if one is known, else at that which came last.
    pub fn start(&self, net: &Net, p: Point) -> usize {
        for bits in (0..6).rev() {
            let slot = self.noted(p, bits);
            if let Some(q) = point_at(net, slot) {
                if are_beside(p, q, bits) {
                    return slot;
                }
            }
        }
        net.last()
    }
}
