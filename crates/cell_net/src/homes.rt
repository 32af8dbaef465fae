//! Which pages of a net belong together, and which of their slots are free. No contract speaks of it.

use crate::deal::Deal;
use cell_slots::{NONE, PAGE, short};
use std::alloc::{AllocError, Global};
use std::mem;

// Blocks are near one another where their numbers differ in so many last bits: they come of one cut.
const NEAR: usize = 2;

/// The blocks of a net, a power of two of them: each has the pages whose numbers end in its own. Of each block the free
/// slots as links name them, how many pages it has, and where the last of them stands. New cells come to one of them.
#[derive(Drop)]
pub struct Homes {
    alloc: Global,
    free: Vec<Vec<u32>>,
    counts: Vec<u32>,
    seats: Vec<usize>,
    home: usize,
}

impl Homes {
    /// No blocks.
    pub fn none(alloc: Global) -> Homes {
        Homes {
            alloc,
            free: Vec::new(alloc),
            counts: Vec::new(alloc),
            seats: Vec::new(alloc),
            home: usize::MAX,
        }
    }

    /// So many blocks without pages.
    pub fn of(alloc: Global, blocks: usize) -> Result<Homes, AllocError> {
        let mut homes = Homes::none(alloc);
        homes.home = 0;
        for _ in 0..blocks {
            homes.free.push(Vec::new(alloc))?;
            homes.counts.push(0)?;
            homes.seats.push(usize::MAX)?;
        }
        Ok(homes)
    }

    /// How many blocks there are.
    pub fn len(&self) -> usize {
        self.free.len()
    }

    /// What makes pages.
    pub fn allocator(&self) -> Global {
        self.alloc
    }

    /// From here on cells come to that block. Whether they came to another.
    pub fn set_home(&mut self, block: usize) -> bool {
        if self.home == block || block >= self.free.len() {
            return false;
        }
        self.home = block;
        true
    }

    /// The block of a page.
    pub fn block_of(&self, number: u32) -> usize {
        number as usize & self.free.len().wrapping_sub(1)
    }

    /// Whether a page belongs to the block where cells come to, or to one near it.
    pub fn is_near(&self, number: u32) -> bool {
        self.block_of(number) >> NEAR == self.home >> NEAR
    }

    /// The number of the next page of the block where cells come to.
    pub fn next_number(&self) -> u32 {
        if self.home < self.counts.len() {
            let before = (self.counts[self.home] as usize).wrapping_mul(self.free.len());
            return short(before.wrapping_add(self.home));
        }
        0
    }

    /// A page stands at a seat.
    pub fn note_page(&mut self, number: u32, seat: usize) {
        let block = self.block_of(number);
        if block < self.counts.len() && block < self.seats.len() && self.free.len() > 0 {
            let count = short(number as usize / self.free.len()).saturating_add(1);
            self.counts[block] = self.counts[block].max(count);
            self.seats[block] = seat;
        }
    }

    /// The seat of the last page of the block where cells come to.
    pub fn last_seat(&self) -> usize {
        if self.home < self.seats.len() {
            self.seats[self.home]
        } else {
            usize::MAX
        }
    }

    /// A slot is free, if there is memory to note it.
    pub fn note_free(&mut self, name: usize) {
        let name = short(name);
        let block = self.block_of(name / PAGE as u32);
        if block < self.free.len() {
            let _ = self.free[block].push(name);
        }
    }

    /// So are all slots of a page but the first.
    pub fn note_free_of(&mut self, number: u32) {
        let first = (number as usize).wrapping_mul(PAGE);
        for at in (1..PAGE).rev() {
            self.note_free(first.wrapping_add(at));
        }
    }

    /// The slot that became free last in the block where cells come to.
    pub fn free_hint(&mut self) -> usize {
        if self.home < self.free.len() {
            return self.free[self.home].pop().unwrap_or(NONE) as usize;
        }
        usize::MAX
    }

    /// The free slots of the blocks of a group are traded for those of another net.
    pub fn trade_free(&mut self, other: &mut Homes, deal: &Deal, group: usize) {
        for block in 0..self.free.len() {
            if deal.group_of(block) == group && block < other.free.len() {
                mem::swap(&mut self.free[block], &mut other.free[block]);
            }
        }
    }
}
