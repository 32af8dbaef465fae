//! Places for the cells that come: freed or open ones.

ghost use Rattle.std.specs.Prelude.{◌≡◌, ◌⊎◌, ◌≤◌, ◌<◌, ℕ, None, Some, IfOk, OnOk, length};
ghost use Rattle.point_order.specs.Sets.{IsIn, IsAscending};
ghost use Rattle.cell_stars.specs.Places.{at_slot};
ghost use Rattle.cell_stars.specs.Moves.{IsVacant};

use crate::numbers::number_behind;
use crate::order::numbers_in_order;
use crate::slots::{Slot, is_open};
use crate::stock::{Stock, list_of};
use std::alloc::{AllocError, Global};

// Adds open places from a number on, until there are so many places. All that are there are to be before it.
fn add_open(list: &mut Vec<u32>, slots: &[Slot], count: usize, first: u32) -> Result<(), AllocError>
    requires order { IsAscending list.old.items }
    requires before { (i : ℕ) → IsIn i list.old.items → i < first }
    requires few { length list.old.items ≤ count }
    ensures order { OnOk result (IsAscending list.new.items) }
    ensures count { OnOk result (length list.new.items ≡ count) }
    ensures open { OnOk result ((i : ℕ) → IsIn i list.new.items →
        IsIn i list.old.items ⊎ (at_slot slots.now i ≡ None)) }
{
    let mut next = first;
    while list.len() < count {
        if is_open(slots, next) {
            list.push(next)?;
        }
        next = number_behind(next)?;
    }
    Ok(())
}

// Places that are likely to be open, and those that are freed, as far as so many are wanted.
fn likely_places(
    alloc: Global,
    stock: &mut Stock,
    slots: &[Slot],
    free: &[u32],
    freed: &[u32],
    count: usize,
) -> Result<Vec<u32>, AllocError>
    ensures { IfOk result (λ list. (i : ℕ) → IsIn i list.items → IsIn i freed.now ⊎ (at_slot slots.now i ≡ None)) }
{
    let mut list = list_of(&mut stock.numbers, alloc, count.max(freed.len()))?;
    list.extend_from_slice(freed)?;
    for i in free {
        if list.len() >= count {
            break;
        }
        if is_open(slots, *i) {
            list.push(*i)?;
        }
    }
    Ok(list)
}

// The number behind the last of these.
fn behind_last(list: &[u32]) -> Result<u32, AllocError>
    requires { IsAscending list.now }
    ensures { IfOk result (λ n. (i : ℕ) → IsIn i list.now → i < n) }
{
    match list.split_last() {
        Some((last, _)) => number_behind(*last),
        None => Ok(0),
    }
}

// So many places, ascending, each freed or open. New ones begin at the first number or behind it.
pub(crate) fn places_for(
    alloc: Global,
    stock: &mut Stock,
    slots: &[Slot],
    free: &[u32],
    freed: &[u32],
    count: usize,
    first: u32,
) -> Result<Vec<u32>, AllocError>
    ensures order { IfOk result (λ list. IsAscending list.items) }
    ensures count { IfOk result (λ list. length list.items ≡ count) }
    ensures vacant { IfOk result (λ list. (i : ℕ) → IsIn i list.items → IsVacant slots.now freed.now i) }
{
    let mut list = numbers_in_order(likely_places(alloc, stock, slots, free, freed, count)?);
    list.truncate(count);
    let last = behind_last(&list)?;
    add_open(&mut list, slots, count, last.max(first))?;
    Ok(list)
}
