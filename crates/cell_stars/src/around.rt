//! The places of the cells of a vertex.

ghost use Rattle.std.specs.Prelude.{◌≡◌, ℕ, MatchBool, ◌<◌, Some, List, IfOk};
ghost use Rattle.point_order.specs.Sets.{IsIn};

use point_order::Point;
use std::alloc::{AllocError, Global};
use std::marker::Model;

/// The places of the cells of a vertex.
///
/// Contracts see it as the vertex and the numbers of the places.
#[derive(Drop)]
pub(crate) struct Around {
    pub(crate) vertex: Point,
    pub(crate) places: Vec<u32>,
}

impl Model for Around {
    ghost use Rattle.std.specs.Prelude.{List, ℕ};

    ghost Value = { ℕ × List ℕ };

    ghost view = { λ a. (a.vertex, a.places.items) };
}

impl Around {
    // The vertex.
    pub(crate) fn vertex(&self) -> Point
        ensures { result ≡ self.now.0 }
    {
        self.vertex
    }

    // Whether there is a place.
    pub(crate) fn has_places(&self) -> bool
        ensures { MatchBool result ((i : ℕ) × IsIn i self.now.1) ((i : ℕ) → IsIn i self.now.1 → ⊥) }
    {
        !self.places.is_empty()
    }
}

// A copy of the star.
fn copied_star(alloc: Global, around: &Around) -> Result<Around, AllocError>
    ensures { IfOk result (λ copy. copy ≡ around.now) }
{
    Ok(Around {
        vertex: around.vertex,
        places: Vec::from_slice(alloc, &around.places)?,
    })
}

// A copy of the stars, with room for so many.
pub(crate) fn copied_stars(
    alloc: Global,
    stars: &[Around],
    count: usize,
) -> Result<Vec<Around>, AllocError>
    ensures { IfOk result (λ list. list.items ≡ stars.now) }
{
    let mut list = Vec::with_capacity(alloc, count)?;
    for around in stars {
        list.push(copied_star(alloc, around)?)?;
    }
    Ok(list)
}
