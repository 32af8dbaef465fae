//! Lists that are kept to be used again: plans, one after another, take memory only where they need more than those
//! before them. No contract speaks of what is kept.

ghost use Rattle.std.specs.Prelude.{◌≡◌, ◌≤◌, [], IfOk, vec_capacity};

use crate::around::Around;
use crate::homes::Home;
use crate::joined::{Beside, Met, Side};
use crate::joins::{Joint, Position};
use crate::matched::Matched;
use crate::moves::Moves;
use crate::parts::KeyPart;
use crate::plan::{KeysPlan, PlacesPlan, Plan, StarsPlan};
use crate::slots::Slot;
use point_order::{Cell, Point};
use std::alloc::{AllocError, Global};
use std::fmt::{self, Debug, Formatter};

/// Lists of plans that were carried out, and those that a plan is made with, kept to be used again.
#[derive(Drop)]
pub struct Stock {
    pub(crate) points: Vec<Vec<Point>>,
    pub(crate) homes: Vec<Vec<Home>>,
    pub(crate) sides: Vec<Vec<[Beside; 4]>>,
    pub(crate) before: Vec<Vec<[Option<Side>; 4]>>,
    pub(crate) met: Vec<Vec<Met>>,
    // The places in stars.
    pub(crate) places: Vec<Vec<u32>>,
    // Places and numbers of stars.
    pub(crate) numbers: Vec<Vec<u32>>,
    pub(crate) cells: Vec<Vec<Cell>>,
    pub(crate) placed: Vec<Vec<(u32, Cell)>>,
    pub(crate) positions: Vec<Vec<Position>>,
    pub(crate) turns: Vec<Vec<(u32, Point)>>,
    pub(crate) stars: Vec<Vec<(u32, Around)>>,
    pub(crate) slots: Vec<Vec<(u32, Slot)>>,
    pub(crate) rims: Vec<Vec<Joint>>,
    pub(crate) keys: Vec<Vec<(Point, u32)>>,
    pub(crate) parts: Vec<Vec<(u32, KeyPart)>>,
}

impl Debug for Stock {
    fn fmt<W: fmt::Write>(&self, f: &mut Formatter<W>) -> fmt::Result {
        f.debug_struct("Stock").finish_non_exhaustive()
    }
}

// An empty list with room for so many: a kept one, if there is one.
pub(crate) fn list_of<T: Drop>(
    kept: &mut Vec<Vec<T>>,
    alloc: Global,
    count: usize,
) -> Result<Vec<T>, AllocError>
    ensures items { IfOk result (λ list. list.items ≡ []) }
    ensures room { IfOk result (λ list. count ≤ vec_capacity list) }
{
    let Some(mut list) = kept.pop() else {
        return Vec::with_capacity(alloc, count);
    };
    list.clear();
    list.reserve(count)?;
    Ok(list)
}

// Keeps the list, if there is memory for that.
pub(crate) fn keep<T: Drop>(kept: &mut Vec<Vec<T>>, list: Vec<T>) {
    let _ = kept.push(list);
}

impl Stock {
    /// Nothing is kept so far. It takes no memory.
    pub fn new(alloc: Global) -> Stock {
        Stock {
            points: Vec::new(alloc),
            homes: Vec::new(alloc),
            sides: Vec::new(alloc),
            before: Vec::new(alloc),
            met: Vec::new(alloc),
            places: Vec::new(alloc),
            numbers: Vec::new(alloc),
            cells: Vec::new(alloc),
            placed: Vec::new(alloc),
            positions: Vec::new(alloc),
            turns: Vec::new(alloc),
            stars: Vec::new(alloc),
            slots: Vec::new(alloc),
            rims: Vec::new(alloc),
            keys: Vec::new(alloc),
            parts: Vec::new(alloc),
        }
    }

    /// A copy of the cells.
    ///
    /// # Errors
    /// Want of memory.
    pub fn copied(&mut self, alloc: Global, cells: &[Cell]) -> Result<Vec<Cell>, AllocError>
        ensures { IfOk result (λ list. list.items ≡ cells.now) }
    {
        let mut list = list_of(&mut self.cells, alloc, cells.len())?;
        list.extend_from_slice(cells)?;
        Ok(list)
    }

    /// Keeps a list of cells.
    pub fn keep_cells(&mut self, list: Vec<Cell>) {
        keep(&mut self.cells, list);
    }

    /// Keeps the lists of what was found once for an exchange, after its plans.
    pub fn keep_matched(&mut self, matched: Matched) {
        let Matched {
            vertices,
            gone,
            fresh,
            joined,
            ..
        } = matched;
        keep(&mut self.points, vertices);
        keep(&mut self.homes, gone.list);
        keep(&mut self.homes, fresh.list);
        keep(&mut self.sides, joined.sides);
        keep(&mut self.before, joined.before);
    }

    // Keeps the lists of what goes and comes.
    pub(crate) fn keep_moves(&mut self, moves: Moves) {
        let Moves {
            freed,
            placed,
            gone,
            ..
        } = moves;
        keep(&mut self.numbers, freed);
        keep(&mut self.placed, placed);
        keep(&mut self.numbers, gone.places);
    }

    // Keeps the lists of what became of the places.
    fn keep_places(&mut self, plan: PlacesPlan) {
        let PlacesPlan {
            slots,
            free,
            rim,
            ..
        } = plan;
        keep(&mut self.slots, slots);
        keep(&mut self.rims, rim);
        keep(&mut self.numbers, free.into_numbers());
    }

    // Keeps those of what became of the keys.
    fn keep_keys(&mut self, plan: KeysPlan) {
        let KeysPlan { mut parts, .. } = plan;
        while let Some((_, part)) = parts.pop() {
            keep(&mut self.keys, part.keys);
        }
        keep(&mut self.parts, parts);
    }

    // Keeps those of what became of the stars.
    fn keep_stars(&mut self, plan: StarsPlan) {
        let StarsPlan {
            mut stars,
            keys,
            spare,
            ..
        } = plan;
        while let Some((_, around)) = stars.pop() {
            keep(&mut self.places, around.places);
        }
        keep(&mut self.stars, stars);
        keep(&mut self.numbers, spare.into_numbers());
        self.keep_keys(keys);
    }

    /// Keeps the lists of a plan that is not needed any more.
    pub fn keep(&mut self, plan: Plan) {
        let Plan { places, stars } = plan;
        self.keep_places(places);
        self.keep_stars(stars);
    }
}
