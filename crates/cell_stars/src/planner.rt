//! Exchanges are planned, with memory.

ghost use Rattle.std.specs.Prelude.{◌≡◌, ◌<◌, ◌≤◌, ◌++◌, ℕ, true, None, Some, List, IfOk, OnOk, length, map};
ghost use Rattle.std.specs.List.{filter};
ghost use Rattle.std.specs.Option.{option_map};
ghost use Rattle.point_order.specs.declared.cell.Cell.{Cell};
ghost use Rattle.point_order.specs.Sets.{IsIn, IsAscending};
ghost use Rattle.cell_stars.specs.Places.{AreStars, cells_of, lies_in};
ghost use Rattle.cell_stars.specs.Plans.{AreBelow, or_else, set_all, IsOnceFor, MakesExchange};
ghost use Rattle.cell_stars.specs.Turns.{AreReady};
ghost use Rattle.cell_stars.specs.Moves.{AreKeysAfter, AreVerticesAt, HasSameCells, HasSameStars, IsRewriting};

use crate::around::{Around, copied_stars};
use crate::cells::Cells;
use crate::joined::Joined;
use crate::joins::{Joint, join};
use crate::matched::Matched;
use crate::moves::Moves;
use crate::plan::{PlacesPlan, Plan, StarsPlan};
use crate::slots::{Slot, copied_slots};
use crate::stock::{Stock, list_of};
use point_order::{Cell, Point};
use std::alloc::{AllocError, Global};

// The first number behind those that stand beside the elements.
fn behind_numbers<T>(list: &[(u32, T)]) -> usize
    ensures { (i : ℕ) (x : T) → IsIn (i, x) list.now → i < result }
{
    let mut end: usize = 0;
    for (i, _) in list {
        end = end.max(*i as usize + 1);
    }
    end
}

// Adds open places until there are so many.
fn add_slots(list: &mut Vec<Slot>, count: usize) -> Result<(), AllocError>
    ensures long { OnOk result (count ≤ length list.new.items) }
    ensures same { OnOk result (HasSameCells list.old.items list.new.items) }
{
    while list.len() < count {
        list.push(Slot::new(None))?;
    }
    Ok(())
}

// The places in a longer list, where there are fewer than so many. A list that grows does so by a quarter.
fn grown_slots(alloc: Global, slots: &[Slot], end: usize) -> Result<Option<Vec<Slot>>, AllocError>
    ensures long { IfOk result (λ list. end ≤ length (or_else (option_map (λ v. v.items) list) slots.now)) }
    ensures same { IfOk result (λ list. HasSameCells slots.now (or_else (option_map (λ v. v.items) list) slots.now)) }
{
    if end <= slots.len() {
        return Ok(None);
    }
    let count = end.max(slots.len().saturating_add(slots.len() / 4));
    let mut list = copied_slots(alloc, slots, count)?;
    add_slots(&mut list, count)?;
    Ok(Some(list))
}

// Adds stars without places of the vertex until there are so many.
fn add_stars(
    alloc: Global,
    list: &mut Vec<Around>,
    p: Point,
    count: usize,
) -> Result<(), AllocError>
    ensures long { IfOk result (λ _. count ≤ length list.new.items) }
    ensures same { IfOk result (λ _. HasSameStars list.old.items list.new.items) }
{
    while list.len() < count {
        list.push(Around {
            vertex: p,
            places: Vec::new(alloc),
        })?;
    }
    Ok(())
}

// The stars in a longer list, where there are fewer than so many. A list that grows does so by a quarter.
fn grown_stars(
    alloc: Global,
    stars: &[Around],
    writes: &[(u32, Around)],
    end: usize,
) -> Result<Option<Vec<Around>>, AllocError>
    requires { (n : ℕ) (s : ℕ × List ℕ) → IsIn (n, s) writes.now → n < end }
    ensures long { IfOk result (λ list. (n : ℕ) (s : ℕ × List ℕ) → IsIn (n, s) writes.now →
        n < length (or_else (option_map (λ v. v.items) list) stars.now)) }
    ensures same { IfOk result (λ list. HasSameStars stars.now (or_else (option_map (λ v. v.items) list) stars.now)) }
{
    let Some((_, first)) = writes.first() else {
        return Ok(None);
    };
    if end <= stars.len() {
        return Ok(None);
    }
    let count = end.max(stars.len().saturating_add(stars.len() / 4));
    let mut list = copied_stars(alloc, stars, count)?;
    add_stars(alloc, &mut list, first.vertex(), count)?;
    Ok(Some(list))
}

// What stands at places after the exchange: nothing at those that are freed, and then the cells that are put.
fn changes(alloc: Global, stock: &mut Stock, moves: &Moves) -> Result<Vec<(u32, Slot)>, AllocError>
    ensures { IfOk result (λ list. list.items ≡ map (λ i. (i, None)) moves.now.freed.items ++ map
        (λ m. (m.0, Some m.1)) moves.now.placed.items) }
{
    let count = moves.freed.len().saturating_add(moves.placed.len());
    let mut list = list_of(&mut stock.slots, alloc, count)?;
    for i in &moves.freed {
        list.push((*i, Slot::new(None)))?;
    }
    for (n, c) in &moves.placed {
        list.push((*n, Slot::new(Some(*c))))?;
    }
    Ok(list)
}

// Links the cells that are put, which are the last of the changes.
fn join_puts(
    alloc: Global,
    stock: &mut Stock,
    slots: &[Slot],
    fresh: &[Cell],
    joined: &Joined,
    moves: &Moves,
    changes: &mut Vec<(u32, Slot)>,
) -> Result<Vec<Joint>, AllocError>
    ensures { OnOk result (changes.new.items ≡ changes.old.items) }
{
    let first = moves.freed.len().min(changes.len());
    join(
        alloc,
        stock,
        slots,
        fresh,
        joined,
        moves,
        &mut changes[first..],
    )
}

impl Cells {
    // What becomes of the places.
    #[inline]
    fn plan_places(
        &self,
        alloc: Global,
        stock: &mut Stock,
        fresh: &[Cell],
        joined: &Joined,
        moves: &Moves,
    ) -> Result<PlacesPlan, AllocError>
        ensures same { IfOk result (λ plan. HasSameCells self.now.slots
            (or_else (option_map (λ v. v.items) plan.grown) self.now.slots)) }
        ensures long { IfOk result (λ plan. (i : ℕ) (c : Cell) → IsIn (i, c) moves.now.placed.items →
            i < length (or_else (option_map (λ v. v.items) plan.grown) self.now.slots)) }
        ensures slots { IfOk result (λ plan. plan.slots.items ≡ map (λ i. (i, None)) moves.now.freed.items ++ map
            (λ m. (m.0, Some m.1)) moves.now.placed.items) }
    {
        let end = behind_numbers(&moves.placed);
        let grown = grown_slots(alloc, &self.slots, end)?;
        let mut slots = changes(alloc, stock, moves)?;
        let rim = join_puts(alloc, stock, &self.slots, fresh, joined, moves, &mut slots)?;
        Ok(PlacesPlan {
            grown,
            slots,
            free: self
                .free
                .after_puts(alloc, stock, &moves.freed, moves.placed.len(), end)?,
            rim,
        })
    }

    // What becomes of the stars.
    #[inline]
    fn plan_stars(
        &self,
        alloc: Global,
        stock: &mut Stock,
        moves: &Moves,
        vertices: &[Point],
    ) -> Result<StarsPlan, AllocError>
        requires order { IsAscending moves.now.freed.items }
        requires vertices { IsAscending vertices.now }
        requires touched { AreVerticesAt self.now moves.now.freed.items moves.now.placed.items
            (filter (lies_in self.now.place) vertices.now) }
        ensures before { IfOk result (λ plan. AreStars self.now) }
        ensures stars { IfOk result (λ plan. IsRewriting self.now moves.now.freed.items moves.now.placed.items
            plan.stars.items) }
        ensures keys { IfOk result (λ plan. AreKeysAfter self.now.keys plan.stars.items
            (set_all plan.keys.parts.items (or_else (option_map (λ v. v.items) plan.keys.more) self.now.keys))) }
        ensures parts { IfOk result (λ plan. AreBelow
            (length (or_else (option_map (λ v. v.items) plan.keys.more) self.now.keys)) plan.keys.parts.items) }
        ensures same { IfOk result (λ plan. HasSameStars self.now.stars
            (or_else (option_map (λ v. v.items) plan.more) self.now.stars)) }
        ensures long { IfOk result (λ plan. (n : ℕ) (s : ℕ × List ℕ) → IsIn (n, s) plan.stars.items →
            n < length (or_else (option_map (λ v. v.items) plan.more) self.now.stars)) }
    {
        let stars = self.writes(alloc, stock, moves, vertices)?;
        let end = behind_numbers(&stars);
        let used = end.max(self.spare.behind() as usize);
        let keys = self.keys_after(alloc, stock, &stars, used)?;
        let more = grown_stars(alloc, &self.stars, &stars, end)?;
        let spare = self.spare.after_writes(alloc, stock, &stars, end)?;
        Ok(StarsPlan {
            more,
            stars,
            keys,
            spare,
        })
    }

    /// Plans an exchange of the gone for the fresh cells, as far as they touch the bucket. What was found once is to
    /// be of these cells. Where it is told that the exchange finds its cells, it is to do so, and no fresh cell is
    /// looked for. Lists are taken from the stock, as far as it has such.
    ///
    /// # Errors
    /// Want of memory, or of a number of 32 bits for a place or a star.
    pub fn plan(
        &self,
        alloc: Global,
        stock: &mut Stock,
        gone: &[Cell],
        fresh: &[Cell],
        matched: &Matched,
        found: bool,
    ) -> Result<Plan, AllocError>
        requires matched { IsOnceFor gone.now fresh.now matched.now }
        requires found { found ≡ true → AreReady self.now.place gone.now fresh.now (cells_of self.now.slots) }
        ensures { IfOk result (λ plan. MakesExchange gone.now fresh.now self.now plan) }
    {
        let moves = self.moves(alloc, stock, gone, fresh, matched, found)?;
        let stars = self.plan_stars(alloc, stock, &moves, matched.vertices())?;
        let places = self.plan_places(alloc, stock, fresh, &matched.joined, &moves)?;
        stock.keep_moves(moves);
        Ok(Plan { places, stars })
    }
}
