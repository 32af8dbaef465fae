//! The fresh cells that come in an exchange: those that touch the bucket and do not stay there.

ghost use Rattle.std.specs.Prelude.{◌≡◌, ℕ, true, Some, IfOk, MatchBool};
ghost use Rattle.point_order.specs.Sets.{IsIn, IsAscending};
ghost use Rattle.cell_stars.specs.Places.{touches_in, at_slot};
ghost use Rattle.cell_stars.specs.Swaps.{Differ};
ghost use Rattle.cell_stars.specs.Homes.{AreHomes};
ghost use Rattle.cell_stars.specs.Moves.{AreComing, AreNew, StandsYet};

use crate::cells::Cells;
use crate::matched::Matched;
use crate::numbers::has_number;
use crate::order::cells_once;
use crate::stock::{Stock, list_of};
use point_order::Cell;
use std::alloc::{AllocError, Global};

// As many cells as mostly come in one bucket: a list of them is one of the small ones of an allocator.
const HERE: usize = 24;

impl Cells {
    // Whether the cell, by a look through a star, stands at a place that is not freed.
    fn stays(&self, cell: &Cell, freed: &[u32]) -> bool
        requires { IsAscending freed.now }
        ensures { MatchBool result (StandsYet self.now freed.now cell.now) (touches_in self.now.place cell.now ≡ true →
            (i : ℕ) → at_slot self.now.slots i ≡ Some cell.now → IsIn i freed.now) }
    {
        let _ = &self.slots;
        match self.place_in_star(cell) {
            Some(i) => !has_number(freed, i),
            None => false,
        }
    }

    // Whether the cell, of which it is known whether it touches the bucket, does so and does not stay there. It is not
    // looked for where it is told that it is new.
    fn comes(&self, cell: &Cell, touches: bool, freed: &[u32], found: bool) -> bool
        requires order { IsAscending freed.now }
        requires touches { touches ≡ touches_in self.now.place cell.now }
        requires found { found ≡ true → touches_in self.now.place cell.now ≡ true → (i : ℕ) →
            at_slot self.now.slots i ≡ Some cell.now → ⊥ }
        ensures { MatchBool result ((touches_in self.now.place cell.now ≡ true)
            × ((i : ℕ) → at_slot self.now.slots i ≡ Some cell.now → IsIn i freed.now))
            (touches_in self.now.place cell.now
            ≡ true → StandsYet self.now freed.now cell.now) }
    {
        if !touches {
            return false;
        }
        if found {
            return true;
        }
        !self.stays(cell, freed)
    }

    // The fresh cells that touch the bucket and do not stay there, each once.
    pub(crate) fn coming_by(
        &self,
        alloc: Global,
        stock: &mut Stock,
        fresh: &[Cell],
        freed: &[u32],
        matched: &Matched,
        found: bool,
    ) -> Result<Vec<Cell>, AllocError>
        requires order { IsAscending freed.now }
        requires single { matched.now.single ≡ true → Differ fresh.now }
        requires homes { AreHomes matched.now.fresh fresh.now }
        requires found { found ≡ true → AreNew self.now fresh.now }
        ensures once { IfOk result (λ coming. Differ coming.items) }
        ensures coming { IfOk result (λ coming. AreComing self.now freed.now fresh.now coming.items) }
    {
        let mut coming = list_of(&mut stock.cells, alloc, fresh.len().min(HERE))?;
        for (number, c) in fresh.iter().enumerate() {
            let touches = self.is_touched_by(&matched.fresh, number, c);
            if self.comes(c, touches, freed, found) {
                coming.push(*c)?;
            }
        }
        if matched.is_single() {
            return Ok(coming);
        }
        Ok(cells_once(coming))
    }
}
