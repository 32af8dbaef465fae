//! The slots of a net: one list, as one thread has it, or pages, which threads hand to one another.
//!
//! Contracts hold for a list with pages behind it too, but what links and numbers say of where a cell is likely to
//! stand is right only where one of the two is empty, as it is in every net that is made. Where it is wrong, time is
//! lost and no answer.

ghost use Rattle.std.specs.Prelude.{◌≡◌, ◌<◌, ◌≤◌, ◌+◌, ◌++◌, ◌∷◌, [], None, Some, length, slice_set, IfOk, IsTrue};
ghost use Rattle.std.specs.Prelude.{List, MatchOption, OnErr, OnOk, Option};
ghost use Rattle.point_order.specs.declared.cell.Cell.{Cell as CellOf};
ghost use Rattle.cell_slots.specs.Nets.{AreMoved, cells_of_slots, slot_at};
ghost use Rattle.cell_slots.specs.Pages.{slots_of};

use crate::corners::Corners;
use crate::edges::HalfFacet;
use crate::packed::Packed;
use crate::pages::{NONE, PAGE, Page, link_in, set_in, slot_in};
use crate::slots::Slot;
use std::alloc::{AllocError, Global};
use std::marker::Model;

/// A list of slots, or pages of them; where the pages of each number stand, and how many slots there are. Contracts see
/// it as the slots of the list, and behind them those of the pages.
#[derive(Drop)]
pub struct Slots {
    list: Vec<Slot>,
    pages: Vec<Page>,
    seats: Vec<u32>,
    count: usize,
}

impl Model for Slots {
    ghost use Rattle.std.specs.Prelude.{◌≡◌, ◌++◌, List, Option, length};
    ghost use Rattle.point_order.specs.declared.cell.Cell.{Cell};
    ghost use Rattle.cell_slots.specs.Pages.{AreWhole, slots_of};

    ghost Value = { List (Option Cell) };

    ghost view = { λ s. s.list.items ++ slots_of s.pages.items };

    ghost invariant = { λ s. AreWhole s.pages.items
        × (length (s.list.items ++ slots_of s.pages.items) ≡ s.count) };
}

// Notes where the page of a number stands.
fn note_seat(seats: &mut Vec<u32>, number: usize, seat: usize) -> Result<(), AllocError> {
    for _ in seats.len()..number.saturating_add(1) {
        seats.push(NONE)?;
    }
    if number < seats.len() {
        seats[number] = u32::try_from(seat).unwrap_or(NONE);
    }
    Ok(())
}

// The last page, if there is one.
fn pop_page(pages: &mut Vec<Page>) -> Option<Page>
    ensures { MatchOption result ((pages.old.items ≡ []) × (pages.new.items ≡ []))
        (λ page. pages.old.items ≡ pages.new.items ++ page ∷ []) }
{
    pages.pop()
}

// The last slot, if there is one.
fn pop_slot(list: &mut Vec<Slot>) -> Option<Slot>
    ensures { MatchOption result ((list.old.items ≡ []) × (list.new.items ≡ []))
        (λ slot. list.old.items ≡ list.new.items ++ slot ∷ []) }
{
    list.pop()
}

impl Slots {
    /// A list of slots.
    pub fn of_list(alloc: Global, list: Vec<Slot>) -> Slots
        ensures { result ≡ list.items }
    {
        let count = list.len();
        Slots {
            list,
            pages: Vec::new(alloc),
            seats: Vec::new(alloc),
            count,
        }
    }

    /// How many slots there are.
    pub fn len(&self) -> usize
        ensures { result ≡ length self.now }
    {
        self.count
    }

    /// How many pages there are.
    pub fn page_count(&self) -> usize {
        self.pages.len()
    }

    /// The slot at a place.
    #[inline(always)]
    pub fn at(&self, place: usize) -> Option<&Slot>
        ensures { MatchOption result (length self.now ≤ place)
            (λ slot. (place < length self.now) × (slot_at self.now place ≡ slot.now)) }
    {
        if place < self.list.len() {
            return Some(&self.list[place]);
        }
        slot_in(&self.pages, place - self.list.len())
    }

    /// The cell of the slot at a place; past the end there is none.
    pub fn cell_at(&self, place: usize) -> Option<Corners>
        ensures { result ≡ slot_at self.now place }
    {
        match self.at(place) {
            Some(slot) => slot.corners(),
            None => None,
        }
    }

    /// Whether the slot is there, and free.
    pub fn is_free(&self, place: usize) -> bool
        ensures { IsTrue result → (place < length self.now) × (slot_at self.now place ≡ None) }
    {
        match self.at(place) {
            Some(slot) => slot.corners().is_none(),
            None => false,
        }
    }

    // What stands in a slot becomes another.
    fn set(&mut self, place: usize, packed: Packed)
        requires { place < length self.old }
        ensures { self.new ≡ slice_set self.old place packed }
    {
        if place < self.list.len() {
            self.list[place].set(packed);
        } else {
            set_in(&mut self.pages, place - self.list.len(), packed);
        }
    }

    /// A cell is put into a slot.
    pub fn fill(&mut self, place: usize, cell: &Corners)
        requires { place < length self.old }
        ensures { self.new ≡ slice_set self.old place (Some cell.now) }
    {
        self.set(place, Packed::of(cell));
    }

    /// The cell of a slot is taken out, so many after the first.
    pub fn clear(&mut self, place: usize, number: u32)
        requires { place < length self.old }
        ensures { self.new ≡ slice_set self.old place None }
    {
        self.set(place, Packed::none(number));
    }

    /// The place that a link names. Of a page that is elsewhere it is past the end.
    #[inline(always)]
    pub fn place_named(&self, name: usize) -> usize {
        if name < self.list.len() {
            return name;
        }
        let number = name / PAGE;
        if number < self.seats.len() {
            let seat = self.seats[number];
            if seat != NONE {
                return (seat as usize).wrapping_mul(PAGE).wrapping_add(name % PAGE);
            }
        }
        usize::MAX
    }

    /// The number of the page of a place, if it has one.
    #[inline(always)]
    pub fn number_at(&self, place: usize) -> u32 {
        let seat = place / PAGE;
        if seat < self.pages.len() {
            self.pages[seat].number()
        } else {
            NONE
        }
    }

    /// How links name a place.
    pub fn name_of(&self, place: usize) -> usize {
        if place < self.list.len() {
            return place;
        }
        let seat = place / PAGE;
        if seat < self.pages.len() {
            return self.pages[seat].name_of(place % PAGE);
        }
        usize::MAX
    }

    /// Where the cell across facet k of that in a slot is likely to stand.
    pub fn link(&self, place: usize, k: usize) -> usize {
        match self.at(place) {
            Some(slot) => self.place_named(slot.link(k)),
            None => usize::MAX,
        }
    }

    /// The how-manieth that was taken out the cell of a slot is likely to be.
    pub fn taken(&self, place: usize) -> usize {
        match self.at(place) {
            Some(slot) => slot.taken(),
            None => 0,
        }
    }

    /// Where the cells across the facets of that in a slot are likely to stand.
    #[inline(always)]
    pub fn links(&self, place: usize) -> [usize; 4] {
        match self.at(place) {
            Some(slot) => [
                self.place_named(slot.link(0)),
                self.place_named(slot.link(1)),
                self.place_named(slot.link(2)),
                self.place_named(slot.link(3)),
            ],
            None => [usize::MAX; 4],
        }
    }

    /// Notes that two facets are the same. Both are in the list, or in pages.
    pub fn link_two(&mut self, one: HalfFacet, other: HalfFacet)
        ensures { self.new ≡ self.old }
    {
        let count = self.list.len();
        if one.place < count && other.place < count {
            self.list[one.place].set_link(one.number, other.place);
            self.list[other.place].set_link(other.number, one.place);
        } else if count == 0 {
            link_in(&mut self.pages, one, other);
        }
    }

    /// A slot comes behind the list, and its place is answered.
    pub fn push(&mut self, slot: Slot) -> Result<usize, AllocError>
        ensures refused { OnErr result (self.new ≡ self.old) }
        ensures size { OnOk result (length self.new ≡ length self.old + 1) }
        ensures pushed { OnOk result ((front : List (Option CellOf)) × (behind : List (Option CellOf))
            × (self.old ≡ front ++ behind) × (self.new ≡ front ++ slot ∷ behind)) }
    {
        if self.count == usize::MAX {
            return Err(AllocError);
        }
        let place = self.list.len();
        self.list.push(slot)?;
        self.count += 1;
        Ok(place)
    }

    /// A page comes behind the others.
    pub fn add(&mut self, page: Page) -> Result<(), AllocError>
        requires { length page ≡ 128 }
        ensures { OnOk result (self.new ≡ self.old ++ page) }
    {
        if self.count > usize::MAX - PAGE {
            return Err(AllocError);
        }
        let seat = self.pages.len();
        note_seat(&mut self.seats, page.number() as usize, seat)?;
        self.pages.push(page)?;
        self.count += PAGE;
        Ok(())
    }

    /// A page is taken off: the last, and where there is none, one of the last slot of the list.
    pub fn remove(&mut self, alloc: Global) -> Result<Option<Page>, AllocError>
        ensures { IfOk result (λ it. MatchOption it ((self.old ≡ []) × (self.new ≡ [])) (λ page.
            (length page ≡ 128) × (length self.new < length self.old)
            × AreMoved (cells_of_slots self.old) (cells_of_slots self.new ++ cells_of_slots page))) }
    {
        match pop_page(&mut self.pages) {
            Some(page) => {
                self.count -= PAGE;
                Ok(Some(page))
            }
            None => match pop_slot(&mut self.list) {
                Some(slot) => {
                    self.count -= 1;
                    let page = Page::of_slot(alloc, slot)?;
                    Ok(Some(page))
                }
                None => Ok(None),
            },
        }
    }

    /// The last slot with a cell of the page at a seat.
    pub fn last_of(&self, seat: usize) -> usize {
        if seat < self.pages.len() {
            return seat
                .wrapping_mul(PAGE)
                .wrapping_add(self.pages[seat].last());
        }
        usize::MAX
    }

    /// The list, and the pages.
    pub fn into_parts(self) -> (Vec<Slot>, Vec<Page>)
        ensures { self ≡ result.0.items ++ slots_of result.1.items }
    {
        let Slots { list, pages, .. } = self;
        (list, pages)
    }
}
