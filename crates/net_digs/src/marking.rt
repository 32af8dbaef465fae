//! Marks of slots while a hole or a star is found: which of their cells were found, and which stay.

ghost use Rattle.std.specs.Prelude.{◌≡◌, ◌↔◌, ◌<◌, ◌≤◌, ◌+◌, length, IsTrue, OnOk, ℕ};
ghost use Rattle.cell_slots.specs.Marked.{IsGoneAt, IsStayingAt, mark_at, set_mark};

use std::alloc::{AllocError, Global};
use std::marker::Model;

// From this stamp on the marks are begun anew.
const LAST: u16 = 65_000;

/// A mark of each slot: where it is the stamp, the cell was found, and where it is one more, the cell stays. Lower
/// marks are of earlier digs, and count for nothing. Contracts see the marks and the stamp.
#[derive(Drop)]
pub struct Marks {
    of: Vec<u16>,
    stamp: u16,
}

impl Model for Marks {
    ghost use Rattle.cell_slots.specs.Marked.{AreLow, MarksView};

    ghost Value = { MarksView };

    ghost view = { λ m. record { of = m.of.items; stamp = m.stamp } };

    ghost invariant = { λ m. AreLow m.of.items m.stamp };
}

impl Marks {
    /// No marks.
    pub fn new(alloc: Global) -> Marks {
        Marks {
            of: Vec::new(alloc),
            stamp: 2,
        }
    }

    // How many there are.
    fn len(&self) -> usize
        ensures { result ≡ length self.now.of }
    {
        self.of.len()
    }

    /// Begins a dig among so many slots: none of them is marked.
    pub fn begin(&mut self, slots: usize) -> Result<(), AllocError>
        ensures room { OnOk result (slots ≤ length self.new.of) }
        ensures none { OnOk result ((i : ℕ) → mark_at self.new i < self.new.stamp) }
    {
        self.go_on();
        'grow: while self.len() < slots {
            self.add()?;
        }
        Ok(())
    }

    // One slot more.
    fn add(&mut self) -> Result<(), AllocError>
        ensures size { OnOk result (length self.new.of ≡ length self.old.of + 1) }
        ensures same { OnOk result ((i : ℕ) → mark_at self.new i ≡ mark_at self.old i) }
        ensures stamp { OnOk result (self.new.stamp ≡ self.old.stamp) }
    {
        self.of.push(0)?;
        Ok(())
    }

    // Takes the next stamp.
    fn go_on(&mut self)
        ensures none { (i : ℕ) → mark_at self.new i < self.new.stamp }
    {
        if self.stamp < LAST {
            self.stamp += 2;
        } else {
            self.of.clear();
            self.stamp = 2;
        }
    }

    // The mark of a slot.
    fn at(&self, place: usize) -> u16
        ensures { result ≡ mark_at self.now place }
    {
        if place < self.of.len() {
            self.of[place]
        } else {
            0
        }
    }

    /// Whether the cell of a slot was found.
    pub fn is_gone(&self, place: usize) -> bool
        ensures { IsTrue result ↔ IsGoneAt self.now place }
    {
        self.at(place) == self.stamp
    }

    /// Whether the cell of a slot is known to stay.
    pub fn is_staying(&self, place: usize) -> bool
        ensures { IsTrue result ↔ IsStayingAt self.now place }
    {
        self.at(place) == self.stamp + 1
    }

    /// The cell of a slot was found.
    pub fn set_gone(&mut self, place: usize)
        requires { place < length self.old.of }
        ensures { self.new ≡ set_mark self.old place self.old.stamp }
    {
        self.of[place] = self.stamp;
    }

    /// The cell of a slot stays.
    pub fn set_staying(&mut self, place: usize)
        requires { place < length self.old.of }
        ensures { self.new ≡ set_mark self.old place (self.old.stamp + 1) }
    {
        self.of[place] = self.stamp + 1;
    }
}
