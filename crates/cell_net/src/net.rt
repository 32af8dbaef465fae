//! The slots of the cells.

ghost use Rattle.std.specs.Prelude.{◌≡◌, ◌<◌, ◌≤◌, ◌+◌, ◌++◌, ◌∷◌, [], length, IfOk, IfSome, MatchOption, OnOk};
ghost use Rattle.point_order.specs.Sets.{IsIn};
ghost use Rattle.cell_slots.specs.Clouds.{HasOtherIn};
ghost use Rattle.hole_laws.specs.Others.{IsOtherOf};
ghost use Rattle.cell_slots.specs.Marked.{HasCellAt, IsOtherAt};
ghost use Rattle.cell_slots.specs.Stars.{HaveRoom};
ghost use Rattle.cell_slots.specs.declared.reach.Reach.TheVariants.{Part, Whole};
ghost use Rattle.cell_slots.specs.Nets.{AreMoved, AreWith, IsWithout, cells_of_slots, slot_at};

use crate::deal::Deal;
use crate::homes::Homes;
use cell_slots::{
    Corners, Face, HalfFacet, Packed, Page, Reach, Slot, Slots, Spot, cell_at, clear_slot,
    fill_slot, gone_across, other_across, other_at, packed_of, push_cell, push_free, put_in,
};
use point_order::Cell;
use std::alloc::{AllocError, Global};
use std::marker::Model;

/// The cells in their slots, and what is likely of each. Contracts see it as its slots.
#[derive(Drop)]
pub struct Net {
    slots: Slots,
    free: Vec<usize>,
    last: usize,
    homes: Homes,
}

impl Model for Net {
    ghost use Rattle.std.specs.Prelude.{List, Option};
    ghost use Rattle.point_order.specs.declared.cell.Cell.{Cell};

    ghost Value = { List (Option Cell) };

    ghost view = { λ n. n.slots };
}

impl Net {
    /// The net of some cells.
    pub fn of_cells(alloc: Global, cells: &[Cell]) -> Result<Net, AllocError>
        ensures { IfOk result (λ net. cells_of_slots net ≡ cells.now) }
    {
        let mut slots = Vec::with_capacity(alloc, cells.len())?;
        for cell in cells {
            slots.push(Slot::new(&Corners::of(cell)))?;
        }
        Ok(Net {
            slots: Slots::of_list(alloc, slots),
            free: Vec::new(alloc),
            last: 0,
            homes: Homes::none(alloc),
        })
    }

    /// A net without slots, whose pages belong to so many blocks.
    pub fn of_blocks(alloc: Global, blocks: usize) -> Result<Net, AllocError>
        ensures { IfOk result (λ net. net ≡ []) }
    {
        let homes = Homes::of(alloc, blocks)?;
        Ok(Net {
            slots: Slots::of_list(alloc, Vec::new(alloc)),
            free: Vec::new(alloc),
            last: 0,
            homes,
        })
    }

    /// Puts a page behind the others. One without a number gets the next of the block where cells come to.
    pub fn add(&mut self, page: Page) -> Result<(), AllocError>
        requires { length page ≡ 128 }
        ensures { OnOk result (self.new ≡ self.old ++ page) }
    {
        let mut page = page;
        page.set_number(self.homes.next_number());
        self.homes.note_page(page.number(), self.slots.page_count());
        self.slots.add(page)
    }

    /// Takes a page off, as long as there are slots.
    pub fn remove(&mut self, alloc: Global) -> Result<Option<Page>, AllocError>
        ensures { IfOk result (λ it. MatchOption it ((self.old ≡ []) × (self.new ≡ [])) (λ page.
            (length page ≡ 128) × (length self.new < length self.old)
            × AreMoved (cells_of_slots self.old) (cells_of_slots self.new ++ cells_of_slots page))) }
    {
        self.slots.remove(alloc)
    }

    /// The block of a page.
    pub fn block_of(&self, page: &Page) -> usize {
        self.homes.block_of(page.number())
    }

    /// How many blocks there are.
    pub fn blocks(&self) -> usize {
        self.homes.len()
    }

    /// The free slots of the blocks of a group are traded for those of another net.
    pub fn trade_free(&mut self, other: &mut Net, deal: &Deal, group: usize)
        ensures same { self.new ≡ self.old }
        ensures other { other.new ≡ other.old }
    {
        self.homes.trade_free(&mut other.homes, deal, group);
    }

    /// From here on new cells come to that block, and the next walk begins there, where it has a cell.
    pub fn visit(&mut self, block: usize)
        ensures { self.new ≡ self.old }
    {
        if self.homes.set_home(block) {
            let place = self.slots.last_of(self.homes.last_seat());
            if self.spot_in(place).is_some() {
                self.last = place;
            }
        }
    }

    /// Whether new cells may come to a slot where one goes. Where there are blocks, it is to be one near theirs.
    #[inline(always)]
    pub fn is_near(&self, place: usize) -> bool {
        self.homes.len() == 0 || self.homes.is_near(self.slots.number_at(place))
    }

    // Makes a page of free slots in the block where cells come to, and answers its first place.
    fn new_page(&mut self) -> Result<usize, AllocError>
        ensures { OnOk result (cells_of_slots self.new ≡ cells_of_slots self.old) }
    {
        let number = self.homes.next_number();
        let page = Page::free(self.homes.allocator(), number)?;
        let first = self.slots.len();
        self.add(page)?;
        self.homes.note_free_of(number);
        Ok(first)
    }

    /// How many slots there are.
    pub fn len(&self) -> usize
        ensures { result ≡ length self.now }
    {
        self.slots.len()
    }

    /// The cell of a slot, if it has one.
    pub fn spot_in(&self, i: usize) -> Option<Spot>
        ensures { result ≡ slot_at self.now i }
    {
        match cell_at(&self.slots, i) {
            Some(cell) => Some(Spot::new(cell, i)),
            None => None,
        }
    }

    /// The slot of the cell that came last.
    pub fn last(&self) -> usize {
        self.last
    }

    /// Where the cell across facet k of that in the slot is likely to stand.
    pub fn link(&self, place: usize, k: usize) -> usize {
        self.slots.link(place, k)
    }

    /// Where the cells across the facets of that in the slot are likely to stand.
    #[inline(always)]
    pub fn links(&self, place: usize) -> [usize; 4] {
        self.slots.links(place)
    }

    /// Notes that two facets are the same.
    pub fn link_two(&mut self, one: HalfFacet, other: HalfFacet)
        ensures { self.new ≡ self.old }
    {
        self.slots.link_two(one, other);
    }

    // The how-manieth that was taken out the cell of the slot is likely to be.
    fn taken(&self, place: usize) -> usize {
        self.slots.taken(place)
    }

    /// The cell of a slot that has one.
    pub fn cell_in(&self, place: usize) -> Corners
        requires { HasCellAt self.now place }
        ensures { slot_at self.now place ≡ Some result }
    {
        match cell_at(&self.slots, place) {
            Some(cell) => cell,
            None => unreachable!(),
        }
    }

    /// The slot of the cell across a facet of a cell, which is likely to be the hint, and which of that cell's facets
    /// it is. In a part it may be foreign.
    #[inline(always)]
    pub fn half_facet_at(
        &self,
        spot: &Spot,
        facet: &Face,
        hint: usize,
        reach: Reach,
    ) -> Option<HalfFacet>
        requires { reach ≡ Whole → HasOtherIn (cells_of_slots self.now) spot.now facet.now }
        ensures { MatchOption result (reach ≡ Part) (λ other. IsOtherAt self.now spot.now facet.now other.place) }
    {
        let cell = spot.cell();
        if let Some(number) = other_at(&self.slots, hint, cell, facet) {
            return Some(HalfFacet {
                place: hint,
                number,
            });
        }
        match reach {
            Reach::Whole => Some(other_across(&self.slots, cell, facet)),
            Reach::Part => None,
        }
    }

    /// The same, where the hint is what was noted of facet k of the cell.
    #[inline(always)]
    pub fn across(&self, spot: &Spot, facet: &Face, k: usize, reach: Reach) -> Option<HalfFacet>
        requires { reach ≡ Whole → HasOtherIn (cells_of_slots self.now) spot.now facet.now }
        ensures { MatchOption result (reach ≡ Part) (λ other. IsOtherAt self.now spot.now facet.now other.place) }
    {
        self.half_facet_at(spot, facet, self.link(spot.place(), k), reach)
    }

    /// The cell across facet k of a cell, in the net or among those that were taken out.
    pub fn behind(&self, gone: &[Spot], spot: &Spot, facet: &Face, k: usize) -> Corners
        requires { HasOtherIn (cells_of_slots self.now ++ gone.now) spot.now facet.now }
        ensures { IsOtherOf (cells_of_slots self.now ++ gone.now) spot.now facet.now result }
    {
        if let Some(half_facet) = self.across(spot, facet, k, Reach::Part) {
            return self.cell_in(half_facet.place);
        }
        let cell = spot.cell();
        let hint = self.taken(self.link(spot.place(), k));
        match gone_across(gone, cell, facet, hint) {
            Some(other) => other,
            None => {
                let half_facet = other_across(&self.slots, cell, facet);
                self.cell_in(half_facet.place)
            }
        }
    }

    /// The same, as far as it is here.
    pub fn behind_here(&self, gone: &[Spot], spot: &Spot, facet: &Face, k: usize) -> Option<Corners>
        ensures { IfSome result (λ other. IsOtherOf (cells_of_slots self.now ++ gone.now) spot.now facet.now other) }
    {
        if let Some(half_facet) = self.across(spot, facet, k, Reach::Part) {
            return Some(self.cell_in(half_facet.place));
        }
        let hint = self.taken(self.link(spot.place(), k));
        gone_across(gone, spot.cell(), facet, hint)
    }

    // Where there are blocks, and the slot of the hint is not free, one of a new page.
    fn room_at(&mut self, hint: usize) -> Result<usize, AllocError>
        ensures { OnOk result (cells_of_slots self.new ≡ cells_of_slots self.old) }
    {
        if self.homes.len() == 0 || self.slots.is_free(hint) {
            return Ok(hint);
        }
        self.new_page()
    }

    /// Puts a cell into the slot of the hint, where that is free, or behind all, and answers which that was.
    pub fn put(&mut self, cell: &Corners, hint: usize) -> Result<usize, AllocError>
        ensures { OnOk result (AreWith (cells_of_slots self.old) cell.now (cells_of_slots self.new)) }
    {
        let hint = self.room_at(hint)?;
        let place = put_in(&mut self.slots, cell, hint)?;
        self.last = place;
        Ok(place)
    }

    /// Takes a cell out, so many after the first.
    pub fn clear(&mut self, cell: &Corners, place: usize, number: usize)
        requires { IsIn cell.now (cells_of_slots self.old) }
        ensures taken { IsWithout (cells_of_slots self.old) cell.now (cells_of_slots self.new) }
        ensures size { length self.new ≡ length self.old }
    {
        clear_slot(&mut self.slots, cell, place, number);
    }

    /// Notes a slot that is free, if it is to be noted and there is memory for it.
    pub fn note_free(&mut self, place: usize, is_noted: bool)
        ensures { self.new ≡ self.old }
    {
        if !is_noted {
            return;
        }
        if self.homes.len() > 0 {
            self.homes.note_free(self.slots.name_of(place));
        } else {
            let _ = self.free.push(place);
        }
    }

    /// Forgets the free slot that was noted last, if it is filled again.
    pub fn forget_free(&mut self, is_filled: bool)
        ensures { self.new ≡ self.old }
    {
        if is_filled {
            let _ = self.free.pop();
        }
    }

    /// Puts a cell into a free slot, which is likely to be the hint, and answers which that was.
    pub fn refill(&mut self, cell: &Corners, hint: usize) -> usize
        requires { HaveRoom self.old 1 }
        ensures with_cell { AreWith (cells_of_slots self.old) cell.now (cells_of_slots self.new) }
        ensures size { length self.new ≡ length self.old }
        ensures count { length (cells_of_slots self.new) ≡ length (cells_of_slots self.old) + 1 }
    {
        let place = fill_slot(&mut self.slots, cell, hint);
        self.last = place;
        place
    }

    /// The slot that became free last, which is no longer noted; else none.
    pub fn free_hint(&mut self) -> usize
        ensures { self.new ≡ self.old }
    {
        if self.homes.len() > 0 {
            return self.slots.place_named(self.homes.free_hint());
        }
        self.free.pop().unwrap_or(usize::MAX)
    }

    /// Makes one more free slot.
    pub fn grow(&mut self) -> Result<(), AllocError>
        ensures cells { cells_of_slots self.new ≡ cells_of_slots self.old }
        ensures less { length self.old ≤ length self.new }
        ensures size { OnOk result (length self.new ≡ length self.old + 1) }
    {
        let place = self.slots.len();
        self.free.push(place)?;
        push_free(&mut self.slots)?;
        Ok(())
    }

    /// What stands in its slots, without what is likely of it.
    pub fn packed(self, alloc: Global) -> Result<Vec<Packed>, AllocError>
        ensures { IfOk result (λ packed. AreMoved (cells_of_slots self) (cells_of_slots packed.items)) }
    {
        let Net { slots, .. } = self;
        packed_of(alloc, slots)
    }

    /// The cells.
    pub fn cells(&self, alloc: Global) -> Result<Vec<Cell>, AllocError>
        ensures { IfOk result (λ cells. cells.items ≡ cells_of_slots self.now) }
    {
        let mut cells = Vec::with_capacity(alloc, self.slots.len())?;
        for place in 0..self.slots.len() {
            push_cell(&mut cells, self.slots.cell_at(place))?;
        }
        Ok(cells)
    }
}
