//! Which block a point belongs to. Any choice is right: no contract speaks of it.

use crate::curve::{level_of, place_of, turn_of};
use point_order::Point;
use std::alloc::{AllocError, Global};

// For so many points there is a block, and how many there are at the most, as a power of two.
const POINTS: usize = 64;

const MOST: u32 = 10;

// A cut across an axis.
#[derive(Clone, Copy)]
struct Cut {
    axis: usize,
    at: i64,
}

// The middle of a block.
#[derive(Clone, Copy)]
struct Middle {
    x: i64,
    y: i64,
    z: i64,
}

// A coordinate of a point.
fn coordinate(p: Point, axis: usize) -> i64 {
    match axis {
        0 => p.x() as i64,
        1 => p.y() as i64,
        _ => p.z() as i64,
    }
}

/// Cuts in the order of a heap, so many levels of them, and the middles of the blocks between them.
#[derive(Drop)]
pub struct Tree {
    levels: u32,
    cuts: Vec<Cut>,
    middles: Vec<Middle>,
}

// The widest axis of some points.
fn widest(points: &[Point]) -> usize {
    let mut least = Middle {
        x: 20_000,
        y: 20_000,
        z: 20_000,
    };
    let mut most = Middle { x: 0, y: 0, z: 0 };
    for p in points {
        let (x, y, z) = (p.x() as i64, p.y() as i64, p.z() as i64);
        least = Middle {
            x: least.x.min(x),
            y: least.y.min(y),
            z: least.z.min(z),
        };
        most = Middle {
            x: most.x.max(x),
            y: most.y.max(y),
            z: most.z.max(z),
        };
    }
    let x = most.x.wrapping_sub(least.x);
    let y = most.y.wrapping_sub(least.y);
    let z = most.z.wrapping_sub(least.z);
    if x >= y && x >= z {
        0
    } else if y >= z {
        1
    } else {
        2
    }
}

// The middle of some points.
fn middle_of(points: &[Point]) -> Middle {
    let (mut x, mut y, mut z) = (0i64, 0i64, 0i64);
    for p in points {
        x = x.wrapping_add(p.x() as i64);
        y = y.wrapping_add(p.y() as i64);
        z = z.wrapping_add(p.z() as i64);
    }
    let n = (points.len() as i64).max(1);
    Middle {
        x: x / n,
        y: y / n,
        z: z / n,
    }
}

impl Tree {
    /// One block, where points have their turns as by one thread.
    pub fn none(alloc: Global) -> Tree {
        Tree {
            levels: 0,
            cuts: Vec::new(alloc),
            middles: Vec::new(alloc),
        }
    }

    /// How many blocks there are.
    pub fn len(&self) -> usize {
        1usize.wrapping_shl(self.levels)
    }

    /// The tree of some points.
    pub fn of(alloc: Global, points: &[Point]) -> Result<Tree, AllocError> {
        let mut levels = 5u32;
        for _ in 0..MOST {
            if levels < MOST && (points.len() / POINTS) > (1usize.wrapping_shl(levels)) {
                levels = levels.wrapping_add(1);
            }
        }
        let mut tree = Tree::none(alloc);
        tree.levels = levels;
        let mut sample = Vec::new(alloc);
        let step = (points.len() / 8usize.wrapping_shl(levels).max(1)).max(1);
        for i in 0..points.len() {
            if i % step == 0 {
                sample.push(points[i])?;
            }
        }
        tree.cut(&mut sample)?;
        tree.note_middles(&sample)?;
        Ok(tree)
    }

    fn cut(&mut self, sample: &mut [Point]) -> Result<(), AllocError> {
        let n = sample.len();
        for level in 0..self.levels {
            for j in 0..1usize.wrapping_shl(level) {
                let a = j.wrapping_mul(n).wrapping_shr(level);
                let b = j.wrapping_add(1).wrapping_mul(n).wrapping_shr(level);
                let middle = j
                    .wrapping_mul(2)
                    .wrapping_add(1)
                    .wrapping_mul(n)
                    .wrapping_shr(level.wrapping_add(1));
                let mut cut = Cut { axis: 0, at: 0 };
                if a <= b && b <= n {
                    let part = &mut sample[a..b];
                    cut.axis = widest(part);
                    let axis = cut.axis;
                    part.sort_unstable_by_key(|p| coordinate(*p, axis));
                }
                if middle < n {
                    cut.at = coordinate(sample[middle], cut.axis);
                }
                self.cuts.push(cut)?;
            }
        }
        Ok(())
    }

    fn note_middles(&mut self, sample: &[Point]) -> Result<(), AllocError> {
        let n = sample.len();
        for j in 0..self.len() {
            let a = j.wrapping_mul(n).wrapping_shr(self.levels);
            let b = j.wrapping_add(1).wrapping_mul(n).wrapping_shr(self.levels);
            if a <= b && b <= n {
                self.middles.push(middle_of(&sample[a..b]))?;
            }
        }
        Ok(())
    }

    /// The block of a point.
    pub fn block_of(&self, p: Point) -> usize {
        let mut node: usize = 0;
        for _ in 0..self.levels {
            if node < self.cuts.len() {
                let cut = self.cuts[node];
                let side = (coordinate(p, cut.axis) >= cut.at) as usize;
                node = node.wrapping_mul(2).wrapping_add(1).wrapping_add(side);
            }
        }
        node.wrapping_add(1).wrapping_sub(self.len())
    }

    /// When a point has its turn.
    pub fn turn_of(&self, p: Point) -> u64 {
        if self.levels == 0 {
            return turn_of(p);
        }
        let block = self.block_of(p) as u64 & 1023;
        level_of(p) << 58 | block << 48 | place_of(p)
    }

    /// Where a block lies along a direction.
    pub fn along(&self, block: usize, way: usize) -> i64 {
        if block >= self.middles.len() {
            return 0;
        }
        let m = self.middles[block];
        match way {
            0 => m.x.wrapping_mul(100),
            1 => m.y.wrapping_mul(100),
            2 => m.z.wrapping_mul(100),
            3 => m.x.wrapping_add(m.y).wrapping_mul(71),
            4 => m.x.wrapping_sub(m.y).wrapping_mul(71),
            5 => m.x.wrapping_add(m.z).wrapping_mul(71),
            6 => m.x.wrapping_sub(m.z).wrapping_mul(71),
            7 => m.y.wrapping_add(m.z).wrapping_mul(71),
            8 => m.y.wrapping_sub(m.z).wrapping_mul(71),
            9 => m.x.wrapping_add(m.y).wrapping_add(m.z).wrapping_mul(58),
            10 => m.x.wrapping_add(m.y).wrapping_sub(m.z).wrapping_mul(58),
            11 => m.x.wrapping_sub(m.y).wrapping_add(m.z).wrapping_mul(58),
            _ => m.y.wrapping_add(m.z).wrapping_sub(m.x).wrapping_mul(58),
        }
    }

    // How wide some blocks lie along a direction.
    fn width(&self, blocks: &[usize], way: usize) -> i64 {
        let n = (blocks.len() as i64).max(1);
        let mut sum = 0i64;
        for block in blocks {
            sum = sum.wrapping_add(self.along(*block, way));
        }
        let middle = sum / n;
        let mut width = 0i64;
        for block in blocks {
            width = width.wrapping_add(self.along(*block, way).wrapping_sub(middle).wrapping_abs());
        }
        width / n
    }

    /// A direction along which the blocks lie wide, another one each turn.
    pub fn way_of(
        &self,
        alloc: Global,
        blocks: &[usize],
        turn: usize,
    ) -> Result<usize, AllocError> {
        let mut widths = Vec::new(alloc);
        let mut most = 0i64;
        for way in 0..13 {
            let width = self.width(blocks, way);
            most = most.max(width);
            widths.push(width)?;
        }
        let mut wide = Vec::new(alloc);
        for way in 0..widths.len() {
            if widths[way].wrapping_mul(10) >= most.wrapping_mul(6) {
                wide.push(way)?;
            }
        }
        if wide.len() == 0 {
            return Ok(0);
        }
        Ok(wide[turn % wide.len()])
    }
}
