//! What goes and comes in an exchange, by places.

ghost use Rattle.std.specs.Prelude.{◌≡◌, ◌⊎◌, ℕ, true, Some, IfOk, MatchOption, length};
ghost use Rattle.std.specs.List.{zip};
ghost use Rattle.point_order.specs.declared.cell.Cell.{Cell};
ghost use Rattle.point_order.specs.Facets.{points_of};
ghost use Rattle.point_order.specs.Sets.{IsIn, IsAscending};
ghost use Rattle.cell_stars.specs.Places.{lies_in, touches_in, at_slot};
ghost use Rattle.cell_stars.specs.Plans.{AreFor, IsOnceFor};
ghost use Rattle.cell_stars.specs.Homes.{AreHomes, AreHomesAt};
ghost use Rattle.cell_stars.specs.Moves.{IsStarFor, AreFreed, AreNew};

use crate::cells::Cells;
use crate::guesses::Guesses;
use crate::matched::Matched;
use crate::order::numbers_in_order;
use crate::slots::place_among;
use crate::stock::{Stock, keep, list_of};
use crate::vacant::places_for;
use point_order::{Cell, Point};
use std::alloc::{AllocError, Global};

// Up to so many numbers are looked through in turn, and stars with so many places are short.
const FEW: usize = 32;

// What goes and comes in an exchange: the places that are freed, ascending, and the cells that are put at places.
#[derive(Drop)]
pub(crate) struct Moves {
    pub(crate) freed: Vec<u32>,
    pub(crate) placed: Vec<(u32, Cell)>,
    // Where each of the gone cells is likely to stand.
    pub(crate) gone: Guesses,
    // Whether the cells are put as they are listed; else in order, where they are many.
    pub(crate) listed: bool,
}

// Each number beside the cell at its place in the other list, which is as long.
fn pairs(
    alloc: Global,
    stock: &mut Stock,
    numbers: &[u32],
    cells: &[Cell],
) -> Result<Vec<(u32, Cell)>, AllocError>
    requires { length numbers.now ≡ length cells.now }
    ensures { IfOk result (λ list. list.items ≡ zip numbers.now cells.now) }
{
    let mut list = list_of(&mut stock.placed, alloc, numbers.len())?;
    for k in 0..numbers.len() {
        list.push((numbers[k], cells[k]))?;
    }
    Ok(list)
}

impl Cells {
    // Whether the point lies in the bucket.
    pub(crate) fn has_here(&self, p: Point) -> bool
        ensures { result ≡ lies_in self.now.place p }
    {
        match self.place() {
            Some((grid, number)) => grid.bucket_of(p) == number,
            None => false,
        }
    }

    // The shortest star of a vertex of the cell, or the first that is short.
    fn shortest_star(&self, cell: &Cell) -> Option<&[u32]>
        ensures { MatchOption result ((p : ℕ) → IsIn p (points_of cell.now) → lies_in self.now.place p ≡ true →
            ⊥) (λ star. IsStarFor self.now cell.now star.now) }
    {
        let mut shortest: Option<&[u32]> = None;
        for p in cell.points() {
            if self.has_here(*p) {
                let star = shorter(shortest, self.star_of(*p));
                if star.len() <= FEW {
                    return Some(star);
                }
                shortest = Some(star);
            }
        }
        shortest
    }

    // The place of the cell, if it stands at one, by a look through a star.
    pub(crate) fn place_in_star(&self, cell: &Cell) -> Option<u32>
        ensures { MatchOption result ((i : ℕ) → at_slot self.now.slots i ≡ Some cell.now →
            touches_in self.now.place cell.now ≡ true → ⊥) (λ i. at_slot self.now.slots i ≡ Some cell.now) }
    {
        match self.shortest_star(cell) {
            Some(star) => place_among(&self.slots, star, cell),
            None => None,
        }
    }

    // The place of the gone cell with the number, if it stands at one: it is likely to stand across a facet of one that
    // was found before.
    fn place_by(
        &self,
        cell: &Cell,
        number: usize,
        matched: &Matched,
        guesses: &Guesses,
    ) -> Option<u32>
        requires { AreHomesAt matched.now.gone.0 matched.now.gone.1 number cell.now }
        ensures { MatchOption result ((i : ℕ) → at_slot self.now.slots i ≡ Some cell.now →
            touches_in self.now.place cell.now ≡ true → ⊥) (λ i. at_slot self.now.slots i ≡ Some cell.now) }
    {
        if !self.is_touched_by(&matched.gone, number, cell) {
            return None;
        }
        match guesses.guess(&self.slots, &matched.joined, cell) {
            Some(place) => Some(place),
            None => self.place_in_star(cell),
        }
    }

    // The places of the gone cells, ascending.
    fn freed_by(
        &self,
        alloc: Global,
        stock: &mut Stock,
        gone: &[Cell],
        matched: &Matched,
        guesses: &mut Guesses,
    ) -> Result<Vec<u32>, AllocError>
        requires { AreHomes matched.now.gone gone.now }
        ensures order { IfOk result (λ freed. IsAscending freed.items) }
        ensures freed { IfOk result (λ freed. AreFreed self.now gone.now freed.items) }
    {
        let _ = &self.slots;
        let mut freed = list_of(&mut stock.numbers, alloc, gone.len())?;
        for (number, c) in gone.iter().enumerate() {
            let place = self.place_by(c, number, matched, guesses);
            guesses.add(place)?;
            if let Some(i) = place {
                freed.push(i)?;
            }
        }
        Ok(numbers_in_order(freed))
    }

    // What goes and comes.
    pub(crate) fn moves(
        &self,
        alloc: Global,
        stock: &mut Stock,
        gone: &[Cell],
        fresh: &[Cell],
        matched: &Matched,
        found: bool,
    ) -> Result<Moves, AllocError>
        requires matched { IsOnceFor gone.now fresh.now matched.now }
        requires found { found ≡ true → AreNew self.now fresh.now }
        ensures order { IfOk result (λ moves. IsAscending moves.freed.items) }
        ensures made { IfOk result (λ moves. AreFor gone.now fresh.now moves.freed.items moves.placed.items self.now) }
    {
        let mut guesses = Guesses::new(alloc, stock, gone.len())?;
        let freed = self.freed_by(alloc, stock, gone, matched, &mut guesses)?;
        let coming = self.coming_by(alloc, stock, fresh, &freed, matched, found)?;
        let places = places_for(
            alloc,
            stock,
            &self.slots,
            self.free.numbers(),
            &freed,
            coming.len(),
            self.free.behind(),
        )?;
        let placed = pairs(alloc, stock, &places, &coming)?;
        keep(&mut stock.numbers, places);
        keep(&mut stock.cells, coming);
        Ok(Moves {
            freed,
            placed,
            gone: guesses,
            listed: matched.is_single(),
        })
    }
}

// The shorter of two stars.
fn shorter<'a>(shortest: Option<&'a [u32]>, star: &'a [u32]) -> &'a [u32]
    ensures { MatchOption shortest.entry (result.now ≡ star.now)
        (λ other. (result.now ≡ star.now) ⊎ (result.now ≡ other.now)) }
{
    match shortest {
        Some(other) if other.len() <= star.len() => other,
        _ => star,
    }
}
