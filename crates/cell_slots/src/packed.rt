//! A cell in 24 bytes, or none.

ghost use Rattle.std.specs.Prelude.{◌≡◌, Some, None};

use crate::corners::Corners;
use point_order::Cell;
use std::marker::Model;

// How many keys there are: 2^42.
const KEYS: u64 = 4_398_046_511_104;

// What of the fourth key stands above the first: 2^22.
const LOW: u64 = 4_194_304;

/// The keys of a cell's points: three of them, and above the first two what the fourth has below 2^22 and from there
/// on. Where there is no cell, the third is no key. Contracts see them as the cell.
#[derive(Drop)]
pub struct Packed {
    u: u64,
    v: u64,
    w: u64,
}

impl Model for Packed {
    ghost use Rattle.std.specs.Prelude.{Option};
    ghost use Rattle.point_order.specs.declared.cell.Cell.{Cell};
    ghost use Rattle.cell_slots.specs.Corners.{ArePacked, cell_in};

    ghost Value = { Option Cell };

    ghost view = { λ s. cell_in s.u s.v s.w };

    ghost invariant = { λ s. ArePacked s.u s.v s.w };
}

impl Packed {
    /// The cell of four keys.
    pub fn of(cell: &Corners) -> Packed
        ensures { result ≡ Some cell.now }
    {
        Packed {
            u: cell.a + cell.d % LOW * KEYS,
            v: cell.b + cell.d / LOW * KEYS,
            w: cell.c,
        }
    }

    /// No cell, with a number beside.
    pub fn none(number: u32) -> Packed
        ensures { result ≡ None }
    {
        Packed {
            u: number as u64,
            v: 0,
            w: KEYS,
        }
    }

    /// The keys of the cell, if there is one.
    pub fn corners(&self) -> Option<Corners>
        ensures { result ≡ self.now }
    {
        if self.w >= KEYS {
            return None;
        }
        Some(Corners {
            a: self.u % KEYS,
            b: self.v % KEYS,
            c: self.w,
            d: self.u / KEYS + self.v / KEYS * LOW,
        })
    }

    /// The cell, if there is one.
    pub fn cell(&self) -> Option<Cell>
        ensures { result ≡ self.now }
    {
        match self.corners() {
            Some(corners) => Some(corners.to_cell()),
            None => None,
        }
    }

    /// What sorts cells: Full ones before Open ones, each kind by its keys. No contract speaks of it.
    pub fn rank(&self) -> (u64, u64, u64, u64) {
        let key = KEYS.wrapping_sub(1);
        (
            self.u & key | (self.v >> 62) << 42,
            self.v & key,
            self.w,
            self.u >> 42 | (self.v >> 42) << 22,
        )
    }

    /// The number beside, where there is no cell.
    pub fn number(&self) -> usize {
        if self.w < KEYS { 0 } else { self.u as usize }
    }
}
