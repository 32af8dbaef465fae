//! Where points are likely to stand among ascending ones.
//!
//! What is told here is a hint. No contract speaks of it.

use point_order::Point;
use std::alloc::{AllocError, Global};

// How many bits a key has.
const BITS: u32 = 42;

/// Of blocks of keys, some one for each point: how many of the points have a key of a block before.
#[derive(Drop)]
pub(crate) struct Ranks {
    starts: Vec<u32>,
    shift: u32,
}

impl Ranks {
    // The number of the block of a key.
    fn block_of(&self, key: u64) -> usize {
        if self.shift < 64 {
            (key >> self.shift) as usize
        } else {
            0
        }
    }

    // How many points come before a block.
    fn start(&self, block: usize) -> usize {
        if block < self.starts.len() {
            self.starts[block] as usize
        } else {
            0
        }
    }

    // Notes the point of a place: blocks behind its own start behind it.
    fn note(&mut self, place: usize, point: Point) {
        let behind = self.block_of(point.key()).saturating_add(1);
        if behind < self.starts.len() {
            self.starts[behind] = u32::try_from(place.saturating_add(1)).unwrap_or(u32::MAX);
        }
    }

    // Lets a block start no earlier than the one before.
    fn follow(&mut self, block: usize) {
        if block < self.starts.len() && block > 0 {
            self.starts[block] = self.starts[block].max(self.starts[block - 1]);
        }
    }

    /// The place where the point of a key is likely to stand.
    pub(crate) fn place(&self, points: &[Point], key: u64) -> usize {
        let block = self.block_of(key);
        let mut low = self.start(block);
        let mut high = self.start(block.saturating_add(1));
        while low < high {
            let middle = low + (high - low) / 2;
            if middle < points.len() && points[middle].key() < key {
                low = middle + 1;
            } else {
                high = middle;
            }
        }
        low
    }
}

// How many blocks so many points take, at most 2^16, and which power of two this is.
fn blocks_for(count: usize) -> (usize, u32) {
    let mut blocks: usize = 1;
    let mut doubled: u32 = 0;
    for _ in 0..16 {
        if blocks < count {
            blocks = blocks.saturating_mul(2);
            doubled = doubled.saturating_add(1);
        }
    }
    (blocks, doubled)
}

/// Those of some points.
///
/// # Errors
/// Want of memory.
pub(crate) fn ranks_of(alloc: Global, points: &[Point]) -> Result<Ranks, AllocError> {
    let (blocks, doubled) = blocks_for(points.len());
    let mut ranks = Ranks {
        starts: vec![in alloc; 0; blocks.saturating_add(1)]?,
        shift: BITS.saturating_sub(doubled),
    };
    for place in 0..points.len() {
        ranks.note(place, points[place]);
    }
    for block in 0..ranks.starts.len() {
        ranks.follow(block);
    }
    Ok(ranks)
}
