//! Cells gathered under keys, by sorting.

ghost use Rattle.std.specs.Prelude.{◌≡◌, ◌<◌, ◌≤◌, ◌^◌, ◌+◌, ◌++◌, ◌⊎◌, ◌↔◌, ℕ, [], ◌∷◌, false, length, map, IfOk};
ghost use Rattle.std.specs.Prelude.{OnOk};
ghost use Rattle.std.specs.List.Sorted.{IsSorted, IsStrictlySortedBy};
ghost use Rattle.std.specs.Ordering.{is_gt, is_lt};
ghost use Rattle.std.specs.declared.cmp.Ordering.TheVariants.{Less};
ghost use Rattle.std.proofs.lemmas.Map.Lookups.{CmpEqualImpliesEq};
ghost use Rattle.point_order.specs.Sets.{IsIn};
ghost use Rattle.face_list.specs.Gather.{item_cmp, numbers_of, full_keys, AreItems, is_a_full_cell as is_full_cell};
ghost use Rattle.face_list.specs.Gather.{GathersItems};
ghost use Rattle.face_list.specs.Tables.{AreStops, IsTable, stretches};

use crate::counts::number_of;
use crate::table::Table;
use point_order::Cell;
use rayon::slice::par_sort_unstable;
use std::alloc::{AllocError, Global};
use std::cmp::Ordering;
use std::thread::Threads;

// Items in order, each once.
fn each_once<K: Ord + Copy>(mut items: Vec<(K, u32)>) -> Vec<(K, u32)>
    requires exact { CmpEqualImpliesEq K.cmp }
    requires order { IsSorted (item_cmp K.cmp) items.items }
    ensures order { IsStrictlySortedBy (item_cmp K.cmp) result.items }
    ensures same { (i : K × ℕ) → IsIn i result.items ↔ IsIn i items.items }
{
    items.dedup();
    items
}

/// The items in order, each once.
pub(crate) fn sorted<K: Ord + Copy>(mut items: Vec<(K, u32)>) -> Vec<(K, u32)>
    requires { CmpEqualImpliesEq K.cmp }
    ensures order { IsStrictlySortedBy (item_cmp K.cmp) result.items }
    ensures same { (i : K × ℕ) → IsIn i result.items ↔ IsIn i items.items }
{
    items.sort_unstable();
    each_once(items)
}

// The items in order, each once, sorted by several threads.
fn in_order<R: Threads + Sync, K: Ord + Copy + Send>(
    rt: &R,
    mut items: Vec<(K, u32)>,
) -> Vec<(K, u32)>
    requires { CmpEqualImpliesEq K.cmp }
    ensures order { IsStrictlySortedBy (item_cmp K.cmp) result.items }
    ensures same { (i : K × ℕ) → IsIn i result.items ↔ IsIn i items.items }
{
    par_sort_unstable(rt, &mut items);
    each_once(items)
}

fn is_full(cell: &Cell) -> bool
    ensures { result ≡ is_full_cell cell.now }
{
    matches!(cell, Cell::Full(_))
}

fn is_before<K: Ord>(a: &K, b: &K) -> bool
    ensures { result ≡ is_lt (K.cmp a.now b.now) }
{
    matches!(a.cmp(b), Ordering::Less)
}

// Puts a key behind the others, which are in order, unless it is the last of them.
fn put_key<K: Ord + Copy>(keys: &mut Vec<K>, key: K) -> Result<(), AllocError>
    requires exact { CmpEqualImpliesEq K.cmp }
    requires order { IsStrictlySortedBy K.cmp keys.old.items }
    requires not_before { (k : K) → IsIn k keys.old.items → is_gt (K.cmp k key) ≡ false }
    ensures order { OnOk result (IsStrictlySortedBy K.cmp keys.new.items) }
    ensures keys { OnOk result ((k : K) → IsIn k keys.new.items ↔ (IsIn k keys.old.items ⊎ (key ≡ k))) }
{
    let count = keys.len();
    if count == 0 || is_before(&keys[count - 1], &key) {
        keys.push(key)?;
    }
    Ok(())
}

// Whether a key comes behind the last one, if there is one.
fn is_next<K: Ord>(last: Option<&K>, key: &K) -> bool {
    match last {
        Some(last) => is_before(last, key),
        None => true,
    }
}

// How many keys the items of Full cells have, so that their list takes no more room than it needs.
fn key_count<K: Ord>(cells: &[Cell], items: &[(K, u32)]) -> usize {
    let mut count: usize = 0;
    let mut last = None;
    for (key, number) in items {
        if is_next(last, key) && cells.get(*number as usize).is_some_and(is_full) {
            count = count.saturating_add(1);
            last = Some(key);
        }
    }
    count
}

/// The keys of the items of Full cells, each once.
pub(crate) fn keys_of_full<K: Ord + Copy>(
    alloc: Global,
    cells: &[Cell],
    items: &[(K, u32)],
) -> Result<Vec<K>, AllocError>
    requires exact { CmpEqualImpliesEq K.cmp }
    requires order { IsStrictlySortedBy (item_cmp K.cmp) items.now }
    requires numbers { AreItems (length cells.now) items.now }
    ensures order { IfOk result (λ keys. IsStrictlySortedBy K.cmp keys.items) }
    ensures keys { IfOk result (λ keys. (k : K) → IsIn k keys.items ↔ IsIn k (full_keys cells.now items.now)) }
{
    let mut keys = Vec::with_capacity(alloc, key_count(cells, items))?;
    for (key, number) in items {
        if is_full(&cells[*number as usize]) {
            put_key(&mut keys, *key)?;
        }
    }
    Ok(keys)
}

// Puts the numbers of a key's items behind the others. Answers the items behind those:
// what was passed over matters to no later key.
fn put_numbers<'a, K: Ord + Copy>(
    numbers: &mut Vec<u32>,
    items: &'a [(K, u32)],
    key: K,
) -> Result<&'a [(K, u32)], AllocError>
    requires { IsStrictlySortedBy (item_cmp K.cmp) items.now }
    ensures numbers { OnOk result (numbers.new.items ≡ numbers.old.items ++ numbers_of K.cmp items.now key) }
    ensures order { IfOk result (λ rest. IsStrictlySortedBy (item_cmp K.cmp) rest.now) }
    ensures later { IfOk result (λ rest. (k : K) → K.cmp key k ≡ Less →
        numbers_of K.cmp rest.now k ≡ numbers_of K.cmp items.now k) }
{
    let mut rest = items;
    while let Some((first, others)) = rest.split_first() {
        match first.0.cmp(&key) {
            Ordering::Less => {}
            Ordering::Equal => numbers.push(first.1)?,
            Ordering::Greater => return Ok(rest),
        }
        rest = others;
    }
    Ok(rest)
}

/// Puts where the numbers end.
pub(crate) fn put_end(ends: &mut Vec<u32>, count: usize) -> Result<(), AllocError>
    ensures { OnOk result (ends.new.items ≡ ends.old.items ++ count ∷ []) }
{
    let end = number_of(count)?;
    ends.push(end)?;
    Ok(())
}

/// Puts the numbers of each key's items behind other numbers, and where they end.
pub(crate) fn put_lists<K: Ord + Copy>(
    ends: &mut Vec<u32>,
    numbers: &mut Vec<u32>,
    keys: &[K],
    items: &[(K, u32)],
) -> Result<(), AllocError>
    requires keys { IsStrictlySortedBy K.cmp keys.now }
    requires order { IsStrictlySortedBy (item_cmp K.cmp) items.now }
    requires stops { AreStops 0 (length numbers.old.items) ends.old.items }
    ensures ends { OnOk result (length ends.new.items ≡ length ends.old.items + length keys.now) }
    ensures stops { OnOk result (AreStops 0 (length numbers.new.items) ends.new.items) }
    ensures lists { OnOk result (stretches numbers.new.items 0 ends.new.items
        ≡ stretches numbers.old.items 0 ends.old.items ++ map (numbers_of K.cmp items.now) keys.now) }
    ensures numbers { OnOk result ((n : ℕ) → IsIn n numbers.new.items →
        IsIn n numbers.old.items ⊎ IsIn n (map (λ i. i.1) items.now)) }
{
    let mut rest = items;
    for key in keys {
        rest = put_numbers(numbers, rest, *key)?;
        put_end(ends, numbers.len())?;
    }
    Ok(())
}

/// The keys, each with the numbers of its items.
pub(crate) fn with_numbers<K: Ord + Copy>(
    alloc: Global,
    keys: Vec<K>,
    items: &[(K, u32)],
) -> Result<Table<K>, AllocError>
    requires keys { IsStrictlySortedBy K.cmp keys.items }
    requires order { IsStrictlySortedBy (item_cmp K.cmp) items.now }
    ensures keys { IfOk result (λ t. t.keys.items ≡ keys.items) }
    ensures ends { IfOk result (λ t. length t.ends.items ≡ length keys.items) }
    ensures stops { IfOk result (λ t. AreStops 0 (length t.numbers.items) t.ends.items) }
    ensures lists { IfOk result (λ t.
        stretches t.numbers.items 0 t.ends.items ≡ map (numbers_of K.cmp items.now) keys.items) }
    ensures numbers { IfOk result (λ t. (n : ℕ) → IsIn n t.numbers.items → IsIn n (map (λ i. i.1) items.now)) }
{
    let mut ends = Vec::with_capacity(alloc, keys.len())?;
    let mut numbers = Vec::with_capacity(alloc, items.len())?;
    put_lists(&mut ends, &mut numbers, &keys, items)?;
    Ok(Table {
        keys,
        ends,
        numbers,
    })
}

// Each key of a Full cell, in order, with the numbers of the cells of its items, in order. It is refused as want of
// memory where there are more numbers than 32 bits count.
pub(crate) fn gather<R: Threads + Sync, K: Ord + Copy + Send>(
    rt: &R,
    alloc: Global,
    cells: &[Cell],
    items: Vec<(K, u32)>,
) -> Result<Table<K>, AllocError>
    requires exact { CmpEqualImpliesEq K.cmp }
    requires numbers { AreItems (length cells.now) items.items }
    ensures gathers { IfOk result (λ t. GathersItems K.cmp cells.now items.items t) }
    ensures table { IfOk result (λ t. IsTable (length cells.now) t) }
{
    let items = in_order(rt, items);
    let keys = keys_of_full(alloc, cells, &items)?;
    let table = with_numbers(alloc, keys, &items)?;
    Ok(table)
}
