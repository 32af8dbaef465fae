//! To which group a block is dealt. Any dealing is right: no contract speaks of it.

use crate::tree::Tree;
use std::alloc::{AllocError, Global};

// Some blocks that are to be dealt to so many groups, and how often they were parted.
#[derive(Drop)]
struct Part {
    blocks: Vec<usize>,
    groups: usize,
    level: usize,
}

impl Part {
    // All blocks.
    fn of_all(alloc: Global, count: usize, groups: usize) -> Result<Part, AllocError> {
        let mut blocks = Vec::new(alloc);
        for block in 0..count {
            blocks.push(block)?;
        }
        Ok(Part {
            blocks,
            groups,
            level: 0,
        })
    }
}

/// The group of each block, and how much each group does at the most.
#[derive(Drop)]
pub struct Deal {
    groups: usize,
    of: Vec<usize>,
    most: usize,
}

impl Deal {
    // All blocks are dealt to the first of so many groups.
    fn to_one(
        alloc: Global,
        blocks: usize,
        groups: usize,
        most: usize,
    ) -> Result<Deal, AllocError> {
        let mut of = Vec::new(alloc);
        for _ in 0..blocks {
            of.push(0usize)?;
        }
        Ok(Deal { groups, of, most })
    }

    /// The blocks are cut across directions that change with the turn, into parts of about equal weight.
    pub fn of(
        alloc: Global,
        tree: &Tree,
        weights: &[usize],
        groups: usize,
        turn: usize,
        most: usize,
    ) -> Result<Deal, AllocError> {
        let mut deal = Deal::to_one(alloc, tree.len(), groups, most)?;
        let mut parts = Vec::new(alloc);
        parts.push(Part::of_all(alloc, tree.len(), groups)?)?;
        let mut next: usize = 0;
        for _ in 0..groups.saturating_mul(2) {
            if let Some(part) = parts.pop() {
                if part.groups < 2 {
                    deal.note(&part.blocks, next);
                    next = next.wrapping_add(1);
                } else {
                    let (one, other) = parted(alloc, tree, weights, part, turn)?;
                    parts.push(one)?;
                    parts.push(other)?;
                }
            }
        }
        Ok(deal)
    }

    fn note(&mut self, blocks: &[usize], group: usize) {
        for block in blocks {
            if *block < self.of.len() {
                self.of[*block] = group;
            }
        }
    }

    /// The number of the last group.
    pub fn last(&self) -> usize {
        self.groups.saturating_sub(1)
    }

    /// How much each group does at the most.
    pub fn most(&self) -> usize {
        self.most
    }

    /// The group of a block.
    pub fn group_of(&self, block: usize) -> usize {
        if block < self.of.len() {
            self.of[block].min(self.groups.wrapping_sub(1))
        } else {
            0
        }
    }
}

// The weight of a block.
fn weight_of(weights: &[usize], block: usize) -> usize {
    if block < weights.len() {
        weights[block]
    } else {
        0
    }
}

// How many of several groups the first side of a cut gets, another share each turn.
fn first_of(groups: usize, turn: usize) -> usize {
    if groups == 2 {
        return 1;
    }
    match turn % 3 {
        0 => groups / 2,
        1 => 1,
        _ => groups.wrapping_sub(1),
    }
}

// Blocks in two: in front those that have about so many of all parts of the weight.
fn split(
    alloc: Global,
    weights: &[usize],
    blocks: &[usize],
    first: usize,
    groups: usize,
) -> Result<(Vec<usize>, Vec<usize>), AllocError> {
    let mut total: usize = 0;
    for block in blocks {
        total = total.wrapping_add(weight_of(weights, *block));
    }
    let want = total.wrapping_mul(first) / groups.max(1);
    let mut sum: usize = 0;
    let mut one = Vec::new(alloc);
    let mut other = Vec::new(alloc);
    for block in blocks {
        if sum < want {
            one.push(*block)?;
        } else {
            other.push(*block)?;
        }
        sum = sum.wrapping_add(weight_of(weights, *block));
    }
    Ok((one, other))
}

// The two sides of a cut across some blocks.
fn parted(
    alloc: Global,
    tree: &Tree,
    weights: &[usize],
    part: Part,
    turn: usize,
) -> Result<(Part, Part), AllocError> {
    let Part {
        blocks,
        groups,
        level,
    } = part;
    let mixed = turn
        .wrapping_mul(2)
        .wrapping_add(level.wrapping_mul(5))
        .wrapping_add(turn / 3);
    let way = tree.way_of(alloc, &blocks, mixed)?;
    let mut blocks = blocks;
    blocks.sort_unstable_by_key(|block| tree.along(*block, way));
    let first = first_of(groups, turn);
    let (one, other) = split(alloc, weights, &blocks, first, groups)?;
    let level = level.wrapping_add(1);
    let one = Part {
        blocks: one,
        groups: first,
        level,
    };
    let other = Part {
        blocks: other,
        groups: groups.wrapping_sub(first),
        level,
    };
    Ok((one, other))
}
