//! Pages of slots, which are handed from net to net by value.

ghost use Rattle.std.specs.Prelude.{◌≡◌, ◌<◌, ◌≤◌, ◌++◌, ◌∷◌, [], None, length, slice_set, IfOk, MatchOption, OnOk};
ghost use Rattle.cell_slots.specs.Nets.{cells_of_slots, slot_at};
ghost use Rattle.cell_slots.specs.Pages.{AreWhole, slots_of};

use crate::edges::HalfFacet;
use crate::packed::Packed;
use crate::slots::Slot;
use std::alloc::{AllocError, Global};
use std::marker::Model;

/// How many slots a page has.
pub const PAGE: usize = 128;

/// In place of the number of a page that has none.
pub const NONE: u32 = u32::MAX;

/// 128 slots, and a number by which links name the page wherever it stands. Contracts see it as the slots.
#[derive(Drop)]
pub struct Page {
    number: u32,
    slots: Vec<Slot>,
}

impl Model for Page {
    ghost use Rattle.std.specs.Prelude.{List, Option};
    ghost use Rattle.point_order.specs.declared.cell.Cell.{Cell};

    ghost Value = { List (Option Cell) };

    ghost view = { λ p. p.slots.items };
}

impl Page {
    /// A page of free slots.
    pub fn free(alloc: Global, number: u32) -> Result<Page, AllocError>
        ensures cells { IfOk result (λ page. cells_of_slots page ≡ []) }
        ensures size { IfOk result (λ page. length page ≡ 128) }
    {
        let mut slots = Vec::with_capacity(alloc, PAGE)?;
        for _ in 0..PAGE {
            slots.push(Slot::free())?;
        }
        Ok(Page { number, slots })
    }

    /// A page without a number, of a slot and free ones.
    pub fn of_slot(alloc: Global, slot: Slot) -> Result<Page, AllocError>
        ensures cells { IfOk result (λ page. cells_of_slots page ≡ cells_of_slots (slot ∷ [])) }
        ensures size { IfOk result (λ page. length page ≡ 128) }
    {
        let mut page = Page::free(alloc, NONE)?;
        page.set(0, slot.packed());
        Ok(page)
    }

    /// Its number.
    pub fn number(&self) -> u32 {
        self.number
    }

    /// How links name a slot of it.
    #[inline(always)]
    pub fn name_of(&self, at: usize) -> usize {
        (self.number as usize).wrapping_mul(PAGE).wrapping_add(at)
    }

    /// Gives it a number, if it has none.
    pub fn set_number(&mut self, number: u32)
        ensures { self.new ≡ self.old }
    {
        if self.number == NONE {
            self.number = number;
        }
    }

    // The slot at a place in it.
    #[inline(always)]
    fn at(&self, at: usize) -> Option<&Slot>
        ensures { MatchOption result (length self.now ≤ at)
            (λ slot. (at < length self.now) × (slot_at self.now at ≡ slot.now)) }
    {
        if at < self.slots.len() {
            return Some(&self.slots[at]);
        }
        None
    }

    // What stands in a slot of it becomes another.
    fn set(&mut self, at: usize, packed: Packed)
        requires { at < length self.old }
        ensures { self.new ≡ slice_set self.old at packed }
    {
        self.slots[at].set(packed);
    }

    // Notes where the cell across facet k of that of a slot is likely to stand.
    #[inline(always)]
    fn set_link(&mut self, at: usize, k: usize, to: usize)
        ensures { self.new ≡ self.old }
    {
        if at < self.slots.len() {
            self.slots[at].set_link(k, to);
        }
    }

    /// The last of its slots that has a cell.
    pub fn last(&self) -> usize {
        let mut last: usize = 0;
        for at in 0..self.slots.len() {
            if self.slots[at].cell().is_some() {
                last = at;
            }
        }
        last
    }

    /// Its slots.
    pub fn into_slots(self) -> Vec<Slot>
        ensures { result.items ≡ self }
    {
        self.slots
    }
}

/// The slot at a place of pages.
#[inline(always)]
pub fn slot_in(pages: &[Page], place: usize) -> Option<&Slot>
    requires { AreWhole pages.now }
    ensures { MatchOption result (length (slots_of pages.now) ≤ place)
        (λ slot. (place < length (slots_of pages.now)) × (slot_at (slots_of pages.now) place ≡ slot.now)) }
{
    let page = place / PAGE;
    if page < pages.len() {
        return pages[page].at(place % PAGE);
    }
    None
}

/// What stands in a slot of pages becomes another.
pub fn set_in(pages: &mut [Page], place: usize, packed: Packed)
    requires whole { AreWhole pages.old }
    requires within { place < length (slots_of pages.old) }
    ensures slots { slots_of pages.new ≡ slice_set (slots_of pages.old) place packed }
    ensures whole { AreWhole pages.new }
    ensures len { length pages.new ≡ length pages.old }
{
    pages[place / PAGE].set(place % PAGE, packed);
}

/// Notes that two facets are the same.
pub fn link_in(pages: &mut [Page], one: HalfFacet, other: HalfFacet)
    ensures { pages.new ≡ pages.old }
{
    let (page, other_page) = (one.place / PAGE, other.place / PAGE);
    if page < pages.len() && other_page < pages.len() {
        let name = pages[page].name_of(one.place % PAGE);
        let other_name = pages[other_page].name_of(other.place % PAGE);
        pages[page].set_link(one.place % PAGE, one.number, other_name);
        pages[other_page].set_link(other.place % PAGE, other.number, name);
    }
}
