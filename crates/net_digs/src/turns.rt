//! The points in the order in which they come to the net.

ghost use Rattle.std.specs.Prelude.{◌≡◌, ◌↔◌, ◌∷◌, [], IfOk, IsTrue};
ghost use Rattle.point_order.specs.Sets.{IsIn};
ghost use Rattle.cell_slots.specs.Parts.{AreOthers};

use cell_net::Tree;
use point_order::Point;
use std::alloc::{AllocError, Global};
use std::marker::Model;

/// A point, and when it has its turn. Contracts see it as the point.
#[derive(Drop)]
pub struct Turn {
    number: u64,
    point: Point,
}

impl Model for Turn {
    ghost use Rattle.std.specs.Prelude.{ℕ};

    ghost Value = { ℕ };

    ghost view = { λ t. t.point };
}

impl Turn {
    /// The point.
    pub fn point(&self) -> Point
        ensures { result ≡ self.now }
    {
        self.point
    }

    /// The block of it, where there are some.
    pub fn block(&self) -> usize {
        (self.number >> 48) as usize & 1023
    }

    // How often it was tried.
    fn times(&self) -> u64 {
        (self.number >> 42) & 63
    }

    /// The level of it.
    pub fn level(&self) -> u64 {
        self.number >> 58
    }

    /// Whether it is put in by one thread, so that others have smaller holes: a quarter of those tried three times are.
    pub fn is_sown(&self) -> bool {
        let drawn = self.point.key().wrapping_mul(0x9E3779B97F4A7C15) >> 40;
        self.times() > 2 && drawn.wrapping_add(self.times()) % 4 == 0
    }

    /// The same, tried once more.
    pub fn tried(&self) -> Turn
        ensures { result ≡ self.now }
    {
        let more = if self.times() < 63 { 1u64 << 42 } else { 0 };
        Turn {
            number: self.number.wrapping_add(more),
            point: self.point,
        }
    }

    /// The same once more.
    pub fn copied(&self) -> Turn
        ensures { result ≡ self.now }
    {
        Turn {
            number: self.number,
            point: self.point,
        }
    }
}

// Whether p is one of the four.
fn is_of_four(a: Point, b: Point, c: Point, d: Point, p: Point) -> bool
    ensures { IsTrue result ↔ IsIn p (a ∷ b ∷ c ∷ d ∷ []) }
{
    a == p || b == p || c == p || d == p
}

/// The points but the four, in the order of their turns.
pub fn turns_of(
    alloc: Global,
    points: &[Point],
    a: Point,
    b: Point,
    c: Point,
    d: Point,
    tree: &Tree,
) -> Result<Vec<Turn>, AllocError>
    ensures { IfOk result (λ turns. AreOthers (a ∷ b ∷ c ∷ d ∷ []) points.now turns.items) }
{
    let mut turns = Vec::with_capacity(alloc, points.len())?;
    for p in points {
        if !is_of_four(a, b, c, d, *p) {
            let _ = p.key();
            turns.push(Turn {
                number: tree.turn_of(*p),
                point: *p,
            })?;
        }
    }
    turns.sort_unstable_by_key(|turn| turn.number);
    Ok(turns)
}
