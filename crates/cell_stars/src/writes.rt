//! The stars after an exchange.

ghost use Rattle.std.specs.Prelude.{◌≡◌, ◌↔◌, ◌<◌, ◌≤◌, ℕ, true, Some, IfOk, IfSome, OnOk, length, List, map};
ghost use Rattle.std.specs.Prelude.{MatchBool, MatchOption, IsTrue};
ghost use Rattle.std.specs.List.{filter};
ghost use Rattle.point_order.specs.Sets.{IsIn, IsAscending};
ghost use Rattle.cell_stars.specs.Places.{lies_in, star_at, IsStarred};
ghost use Rattle.cell_stars.specs.Adding.{head_of, IsStaying};
ghost use Rattle.cell_stars.specs.Moves.{AreMarked, AreVerticesAt, AreTurnsFor, AreStarsAfter, IsNumberFor};
ghost use Rattle.cell_stars.specs.Moves.{IsOwnNumber, IsSpare, IsTurnAdded, IsRewriting};

use crate::around::Around;
use crate::cells::{Cells, places_in};
use crate::marks::{Marks, is_unmarked, marks_of};
use crate::moves::Moves;
use crate::numbers::number_behind;
use crate::parts::part_for;
use crate::steps::place_of;
use crate::stock::{Stock, keep, list_of};
use point_order::Point;
use std::alloc::{AllocError, Global};

// As many places come to a star as a rule: room for them is made at once.
const MORE: usize = 6;

// As many places as a star mostly has.
const USUAL: usize = 28;

// Whether no place is in the star with the number.
fn is_spare(stars: &[Around], n: u32) -> bool
    ensures spare { IsTrue result → IsSpare stars.now n }
    ensures behind { length stars.now ≤ n → result ≡ true }
{
    match stars.get(n as usize) {
        Some(around) => !around.has_places(),
        None => true,
    }
}

// Whether the star with the number is the vertex's and has a place.
pub(crate) fn is_own(stars: &[Around], n: u32, p: Point) -> bool
    ensures { MatchBool result (((star_at stars.now n).0 ≡ p)
        × ((i : ℕ) × IsIn i (star_at stars.now n).1)) ((star_at stars.now n).0 ≡ p → (i : ℕ) →
        IsIn i (star_at stars.now n).1 → ⊥) }
{
    !places_in(stars, n, p).is_empty()
}

// The first of the numbers that is spare and not before the least.
fn likely_spare(stars: &[Around], spare: &[u32], least: u32) -> Option<u32>
    ensures { IfSome result (λ n. (least ≤ n) × IsSpare stars.now n) }
{
    for n in spare {
        if *n >= least && is_spare(stars, *n) {
            return Some(*n);
        }
    }
    None
}

// The first spare number from this one on.
fn spare_behind(stars: &[Around], first: u32) -> Result<u32, AllocError>
    ensures { IfOk result (λ n. (first ≤ n) × IsSpare stars.now n) }
{
    let mut n = first;
    while !is_spare(stars, n) {
        n = number_behind(n)?;
    }
    Ok(n)
}

impl Cells {
    // The number of the vertex's star, if it has one with places.
    fn number_of(&self, p: Point) -> Option<u32>
        ensures { MatchOption result ((i : ℕ) → IsStarred self.now.keys self.now.stars p i →
            ⊥) (λ n. IsOwnNumber self.now p n) }
    {
        let keys = part_for(&self.keys, p);
        match place_of(keys, p) {
            Ok(i) => {
                let number = keys[i].1;
                if is_own(&self.stars, number, p) {
                    Some(number)
                } else {
                    None
                }
            }
            Err(_) => None,
        }
    }

    // A spare number that is not before the least.
    fn spare_from(&self, least: u32) -> Result<u32, AllocError>
        ensures { IfOk result (λ n. (least ≤ n) × IsSpare self.now.stars n) }
    {
        if let Some(n) = likely_spare(&self.stars, self.spare.numbers(), least) {
            return Ok(n);
        }
        let n = spare_behind(&self.stars, self.spare.behind().max(least))?;
        Ok(n)
    }

    // Adds the number that the vertex's star has after an exchange: its own, or else a spare one. That is not before
    // the least, which is behind it then.
    fn add_turn(
        &self,
        turns: &mut Vec<(u32, Point)>,
        least: &mut u32,
        p: Point,
    ) -> Result<(), AllocError>
        ensures { OnOk result (IsTurnAdded self.now p least.old least.new turns.old.items turns.new.items) }
    {
        match self.number_of(p) {
            Some(n) => turns.push((n, p))?,
            None => {
                let n = self.spare_from(*least)?;
                *least = number_behind(n)?;
                turns.push((n, p))?;
            }
        }
        Ok(())
    }

    // The numbers that the stars of those of the vertices that lie in the bucket have after an exchange.
    fn turns(
        &self,
        alloc: Global,
        stock: &mut Stock,
        vertices: &[Point],
    ) -> Result<Vec<(u32, Point)>, AllocError>
        requires { IsAscending vertices.now }
        ensures numbered { IfOk result (λ turns. AreTurnsFor self.now
            (filter (lies_in self.now.place) vertices.now) turns.items) }
        ensures vertices { IfOk result (λ turns. map (λ t. t.1) turns.items
            ≡ filter (lies_in self.now.place) vertices.now) }
    {
        let _ = &self.stars;
        let mut turns = list_of(&mut stock.turns, alloc, vertices.len())?;
        let mut least = 0;
        for p in vertices {
            if self.has_here(*p) {
                self.add_turn(&mut turns, &mut least, *p)?;
            }
        }
        Ok(turns)
    }

    // The places that stay in the star of a vertex, whose number this is.
    fn staying(
        &self,
        alloc: Global,
        stock: &mut Stock,
        n: u32,
        p: Point,
        freed: &[u32],
        marks: &Marks,
    ) -> Result<Vec<u32>, AllocError>
        requires order { IsAscending freed.now }
        requires marks { AreMarked marks.now freed.now }
        requires number { IsNumberFor self.now p n }
        ensures { IfOk result (λ list. (i : ℕ) → IsIn i list.items
            ↔ (IsStarred self.now.keys self.now.stars p i × (IsIn i freed.now → ⊥))) }
    {
        let own = places_in(&self.stars, n, p);
        let count = own.len().saturating_add(MORE).max(USUAL);
        let mut list = list_of(&mut stock.places, alloc, count)?;
        list.extend_from_slice(own)?;
        list.retain(|i| is_unmarked(freed, marks, *i));
        Ok(list)
    }

    // The star of a vertex without the freed places.
    fn star_staying(
        &self,
        alloc: Global,
        stock: &mut Stock,
        n: u32,
        p: Point,
        freed: &[u32],
        marks: &Marks,
    ) -> Result<Around, AllocError>
        requires order { IsAscending freed.now }
        requires marks { AreMarked marks.now freed.now }
        requires number { IsNumberFor self.now p n }
        ensures vertex { IfOk result (λ star. star.0 ≡ p) }
        ensures places { IfOk result (λ star. (i : ℕ) → IsIn i star.1
            ↔ (IsStarred self.now.keys self.now.stars p i × (IsIn i freed.now → ⊥))) }
    {
        Ok(Around {
            vertex: p,
            places: self.staying(alloc, stock, n, p, freed, marks)?,
        })
    }

    // The stars of the vertices with these numbers, without the freed places.
    fn stars_staying(
        &self,
        alloc: Global,
        stock: &mut Stock,
        turns: &[(u32, Point)],
        freed: &[u32],
    ) -> Result<Vec<(u32, Around)>, AllocError>
        requires order { IsAscending freed.now }
        requires numbers { (n p : ℕ) → IsIn (n, p) turns.now → IsNumberFor self.now p n }
        ensures heads { IfOk result (λ writes. map head_of writes.items ≡ turns.now) }
        ensures stars { IfOk result (λ writes. (w : ℕ × (ℕ × List ℕ)) → IsIn w writes.items →
            IsStaying self.now freed.now w) }
    {
        let marks = marks_of(freed);
        let mut writes = list_of(&mut stock.stars, alloc, turns.len())?;
        for (n, p) in turns {
            writes.push((*n, self.star_staying(alloc, stock, *n, *p, freed, &marks)?))?;
        }
        Ok(writes)
    }

    // The stars after an exchange of the vertices with these numbers.
    fn stars_after(
        &self,
        alloc: Global,
        stock: &mut Stock,
        turns: &[(u32, Point)],
        moves: &Moves,
    ) -> Result<Vec<(u32, Around)>, AllocError>
        requires order { IsAscending moves.now.freed.items }
        requires vertices { IsAscending (map (λ t. t.1) turns.now) }
        requires inside { (n p : ℕ) → IsIn (n, p) turns.now → lies_in self.now.place p ≡ true }
        requires numbers { (n p : ℕ) → IsIn (n, p) turns.now → IsNumberFor self.now p n }
        ensures { IfOk result (λ writes. AreStarsAfter self.now moves.now.freed.items moves.now.placed.items turns.now
            writes.items) }
    {
        let mut writes = self.stars_staying(alloc, stock, turns, &moves.freed)?;
        self.add_placed(&mut writes, &moves.placed)?;
        Ok(writes)
    }

    // The stars that change in an exchange.
    pub(crate) fn writes(
        &self,
        alloc: Global,
        stock: &mut Stock,
        moves: &Moves,
        vertices: &[Point],
    ) -> Result<Vec<(u32, Around)>, AllocError>
        requires order { IsAscending moves.now.freed.items }
        requires vertices { IsAscending vertices.now }
        requires touched { AreVerticesAt self.now moves.now.freed.items moves.now.placed.items
            (filter (lies_in self.now.place) vertices.now) }
        ensures { IfOk result (λ writes. IsRewriting self.now moves.now.freed.items moves.now.placed.items
            writes.items) }
    {
        let turns = self.turns(alloc, stock, vertices)?;
        let writes = self.stars_after(alloc, stock, &turns, moves)?;
        keep(&mut stock.turns, turns);
        Ok(writes)
    }
}
