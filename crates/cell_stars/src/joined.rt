//! Which cells lie across the facets of those that go and come in an exchange: by a table of their facets, found once
//! for all buckets. It is only a hint, and no clause speaks of it.

use crate::links::NONE;
use crate::stock::{Stock, keep, list_of};
use point_order::{Cell, Point};
use std::alloc::{AllocError, Global};

/// What lies across a facet of a cell that comes.
#[derive(Clone, Copy)]
pub(crate) enum Beside {
    /// It was not found.
    Nothing,
    /// Another cell that comes, by where it stands in their list.
    Fresh(u32),
    /// What lay across this side of a cell that goes, by where it stands in their list.
    Behind(Side),
}

/// A side of a cell that goes, by where the cell stands in their list.
#[derive(Clone, Copy)]
pub(crate) struct Side {
    pub(crate) cell: u32,
    pub(crate) side: u8,
}

/// For each cell that comes in an exchange, what lies across its facets, in their order. For each that goes, the sides
/// of cells before it that it lies across.
#[derive(Drop)]
pub(crate) struct Joined {
    pub(crate) sides: Vec<[Beside; 4]>,
    pub(crate) before: Vec<[Option<Side>; 4]>,
}

// Something is looked for in so many entries of a table from its first one on.
const TURNS: usize = 12;

// The entry of a table of so many with which a search begins.
fn first_entry(facet: u32, count: usize) -> usize {
    (u64::from(facet).wrapping_mul(count as u64) >> 32) as usize
}

// An odd number whose product with another depends in its upper bits on all bits of that.
const FACTOR: u64 = 0x9E37_79B9_7F4A_7C15;

// A number for the point, of which all bits depend on all of its.
fn mixed(p: Point) -> u64 {
    let product = p.key().wrapping_mul(FACTOR);
    (product ^ (product >> 32)).wrapping_mul(FACTOR)
}

// The upper half of the number.
fn upper(number: u64) -> u32 {
    (number >> 32) as u32
}

// Numbers for the facets of the cell, in their order: the upper halves of the sums of those of their points. A facet
// has the same number in both of its cells, and hardly another has it.
fn facets_of(cell: &Cell) -> [u32; 4] {
    match cell {
        Cell::Full(quad) => {
            let (a, b, c, d) = quad.corners();
            let (a, b, c, d) = (mixed(a), mixed(b), mixed(c), mixed(d));
            let (first, last) = (a.wrapping_add(b), c.wrapping_add(d));
            [
                upper(last.wrapping_add(b)),
                upper(last.wrapping_add(a)),
                upper(first.wrapping_add(d)),
                upper(first.wrapping_add(c)),
            ]
        }
        Cell::Open(tri) => {
            let (a, b, c) = tri.corners();
            let (a, b, c) = (mixed(a), mixed(b), mixed(c));
            let first = a.wrapping_add(b);
            [
                upper(b.wrapping_add(c)),
                upper(a.wrapping_add(c)),
                upper(first),
                upper(first.wrapping_add(c)),
            ]
        }
    }
}

// A facet by its number, and the cell by which it was met, with its side: one that goes or one that comes.
#[derive(Clone, Copy)]
pub(crate) struct Met {
    facet: u32,
    owner: u32,
}

impl Met {
    // The facet met by a cell with its side.
    fn new(facet: u32, cell: u32, side: u8, goes: bool) -> Met {
        let low = u32::from(side) * 2 + u32::from(goes);
        Met {
            facet,
            owner: cell.wrapping_mul(8).wrapping_add(low),
        }
    }

    // The cell by which it was met.
    fn cell(self) -> u32 {
        self.owner / 8
    }

    // The side of the cell.
    fn side(self) -> u8 {
        (self.owner / 2 % 4) as u8
    }

    // Whether the cell goes.
    fn goes(self) -> bool {
        self.owner % 2 == 1
    }
}

// In place of a facet.
const EMPTY: Met = Met {
    facet: u32::MAX,
    owner: 0,
};

// As many entries as there are for the facets of one cell.
const ENTRIES: usize = 5;

// The facets that were met. One that finds no entry in its turns is left out.
#[derive(Drop)]
struct Table {
    count: usize,
    entries: Vec<Met>,
}

impl Table {
    // A table for the facets of so many cells.
    fn new(alloc: Global, stock: &mut Stock, cells: usize) -> Result<Table, AllocError> {
        let count = cells.saturating_mul(ENTRIES);
        let mut entries = list_of(&mut stock.met, alloc, 0)?;
        entries.resize(count.saturating_add(TURNS), EMPTY)?;
        Ok(Table { count, entries })
    }

    // The cell by which the facet was met before. Else it was met by this one.
    fn meet(&mut self, met: Met) -> Option<Met> {
        let first = first_entry(met.facet, self.count);
        for turn in 0..TURNS {
            let entry = self.entries.get_mut(first.saturating_add(turn))?;
            if entry.facet == met.facet {
                return Some(*entry);
            }
            if entry.facet == EMPTY.facet {
                *entry = met;
                return None;
            }
        }
        None
    }
}

impl Joined {
    // This lies across a side of a cell that comes.
    fn set(&mut self, cell: u32, side: u8, beside: Beside) {
        if let Some(sides) = self.sides.get_mut(cell as usize) {
            if let Some(old) = sides.get_mut(side as usize) {
                *old = beside;
            }
        }
    }

    // What lies across a facet of a cell that comes, if that was met before: which is told of it then too.
    fn join(&mut self, table: &mut Table, facet: u32, cell: u32, side: u8) -> Beside {
        match table.meet(Met::new(facet, cell, side, false)) {
            Some(met) => {
                self.set(met.cell(), met.side(), Beside::Fresh(cell));
                Beside::Fresh(met.cell())
            }
            None => Beside::Nothing,
        }
    }

    // Adds a cell that comes.
    fn add(&mut self, table: &mut Table, facets: [u32; 4]) -> Result<(), AllocError> {
        let cell = u32::try_from(self.sides.len()).unwrap_or(NONE);
        let [a, b, c, d] = facets;
        let sides = [
            self.join(table, a, cell, 0),
            self.join(table, b, cell, 1),
            self.join(table, c, cell, 2),
            self.join(table, d, cell, 3),
        ];
        self.sides.push(sides)?;
        Ok(())
    }

    // Matches a facet of a cell that goes with that of a cell that comes, or gives that of one that goes.
    fn join_gone(&mut self, table: &mut Table, facet: u32, cell: u32, side: u8) -> Option<Side> {
        let met = table.meet(Met::new(facet, cell, side, true))?;
        if met.goes() {
            return Some(Side {
                cell: met.cell(),
                side: met.side(),
            });
        }
        self.set(met.cell(), met.side(), Beside::Behind(Side { cell, side }));
        None
    }

    // Adds a cell that goes.
    fn add_gone(&mut self, table: &mut Table, facets: [u32; 4]) -> Result<(), AllocError> {
        let cell = u32::try_from(self.before.len()).unwrap_or(NONE);
        let [a, b, c, d] = facets;
        let before = [
            self.join_gone(table, a, cell, 0),
            self.join_gone(table, b, cell, 1),
            self.join_gone(table, c, cell, 2),
            self.join_gone(table, d, cell, 3),
        ];
        self.before.push(before)?;
        Ok(())
    }

    // What lies across the facets of the cells.
    pub(crate) fn of(
        alloc: Global,
        stock: &mut Stock,
        gone: &[Cell],
        fresh: &[Cell],
    ) -> Result<Joined, AllocError> {
        let mut joined = Joined {
            sides: list_of(&mut stock.sides, alloc, fresh.len())?,
            before: list_of(&mut stock.before, alloc, gone.len())?,
        };
        let cells = fresh.len().saturating_add(gone.len());
        let mut table = Table::new(alloc, stock, cells)?;
        for cell in fresh {
            joined.add(&mut table, facets_of(cell))?;
        }
        for cell in gone {
            joined.add_gone(&mut table, facets_of(cell))?;
        }
        keep(&mut stock.met, table.entries);
        Ok(joined)
    }
}
