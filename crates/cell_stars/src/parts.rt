//! The keys of a bucket in parts. A vertex that has a star has its key, with the number of the star, in the part whose
//! number is the rest of a division by the count of parts: so a key that comes or goes changes one part only.

ghost use Rattle.std.specs.Prelude.{◌≡◌, ◌↔◌, ◌⊎◌, ◌<◌, ◌%◌, ℕ, [], IfOk, OnOk, length, map};
ghost use Rattle.std.specs.Option.{option_map};
ghost use Rattle.point_order.specs.Sets.{IsIn, IsAscending};
ghost use Rattle.cell_stars.specs.Places.{AreFiled, all_keys, part_of};
ghost use Rattle.cell_stars.specs.Plans.{or_else};
ghost use Rattle.cell_stars.specs.Moves.{AreKeysOf, HaveOneKey, HasSameKeys};

use crate::key_lists::put_key;
use point_order::Point;
use std::alloc::{AllocError, Global};
use std::marker::Model;

/// The keys of one part, ascending.
#[derive(Drop)]
pub(crate) struct KeyPart {
    pub(crate) keys: Vec<(Point, u32)>,
}

impl Model for KeyPart {
    ghost use Rattle.std.specs.Prelude.{List, ℕ};

    ghost Value = { List (ℕ × ℕ) };

    ghost view = { λ part. part.keys.items };
}

impl KeyPart {
    // Its keys.
    pub(crate) fn keys(&self) -> &[(Point, u32)]
        ensures { result.now ≡ self.now }
    {
        &self.keys
    }
}

// There are so many parts, the more the more keys there are. The counts are primes, so that vertices spread well.
const COUNTS: [usize; 4] = [1, 61, 509, 4093];

// The greatest count.
const MANY: usize = 32749;

// A part has so many keys on the average, before the keys are filed in more parts.
const MOST: usize = 64;

// How many parts there are to be for so many keys.
pub(crate) fn count_for(keys: usize) -> usize
    ensures { 0 < result }
{
    for count in COUNTS {
        if keys / MOST < count {
            return count.max(1);
        }
    }
    MANY
}

// The number of the part for a vertex, of so many parts.
pub(crate) fn number_for(count: usize, p: Point) -> usize
    requires { 0 < count }
    ensures number { result ≡ p % count }
    ensures below { result < count }
{
    (p.key() % count as u64) as usize
}

// The keys of the part for a vertex.
pub(crate) fn part_for(parts: &[KeyPart], p: Point) -> &[(Point, u32)]
    ensures { result.now ≡ part_of parts.now p }
{
    if parts.is_empty() {
        return &[];
    }
    parts[number_for(parts.len(), p)].keys()
}

// A copy of the part.
fn copied_part(alloc: Global, part: &KeyPart) -> Result<KeyPart, AllocError>
    ensures { IfOk result (λ copy. copy ≡ part.now) }
{
    Ok(KeyPart {
        keys: Vec::from_slice(alloc, &part.keys)?,
    })
}

// A copy of the parts.
pub(crate) fn copied_parts(alloc: Global, parts: &[KeyPart]) -> Result<Vec<KeyPart>, AllocError>
    ensures { IfOk result (λ list. list.items ≡ parts.now) }
{
    let mut list = Vec::with_capacity(alloc, parts.len())?;
    for part in parts {
        list.push(copied_part(alloc, part)?)?;
    }
    Ok(list)
}

// The keys of all parts.
fn joined(alloc: Global, parts: &[KeyPart]) -> Result<Vec<(Point, u32)>, AllocError>
    ensures { IfOk result (λ list. list.items ≡ all_keys parts.now) }
{
    let mut list = Vec::new(alloc);
    for part in parts {
        list.extend_from_slice(part.keys())?;
    }
    Ok(list)
}

// A part without keys.
fn bare_part(alloc: Global) -> KeyPart
    ensures { result ≡ [] }
{
    KeyPart {
        keys: Vec::new(alloc),
    }
}

// So many parts without keys.
fn bare_parts(alloc: Global, count: usize) -> Result<Vec<KeyPart>, AllocError>
    ensures filed { IfOk result (λ parts. AreFiled parts.items) }
    ensures none { IfOk result (λ parts. (k : ℕ × ℕ) → IsIn k (part_of parts.items k.0) → ⊥) }
    ensures count { IfOk result (λ parts. length parts.items ≡ count) }
{
    let mut parts = Vec::with_capacity(alloc, count)?;
    for _ in 0..count {
        parts.push(bare_part(alloc))?;
    }
    Ok(parts)
}

// Puts the vertex into the part, with the number.
fn put_in(part: &mut KeyPart, p: Point, n: u32) -> Result<(), AllocError>
    requires { IsAscending (map (λ k. k.0) part.old) }
    ensures order { OnOk result (IsAscending (map (λ k. k.0) part.new)) }
    ensures keys { OnOk result ((k : ℕ × ℕ) → IsIn k part.new
        ↔ (((p, n) ≡ k) ⊎ (IsIn k part.old × ¬ (k.0 ≡ p)))) }
{
    put_key(&mut part.keys, p, n)?;
    Ok(())
}

// Puts the vertex into its part, with the number.
fn file_key(parts: &mut Vec<KeyPart>, p: Point, n: u32) -> Result<(), AllocError>
    requires some { 0 < length parts.old.items }
    requires filed { AreFiled parts.old.items }
    ensures filed { OnOk result (AreFiled parts.new.items) }
    ensures count { OnOk result (length parts.new.items ≡ length parts.old.items) }
    ensures keys { OnOk result ((k : ℕ × ℕ) → IsIn k (part_of parts.new.items k.0)
        ↔ (((p, n) ≡ k) ⊎ (IsIn k (part_of parts.old.items k.0) × ¬ (k.0 ≡ p)))) }
{
    let number = number_for(parts.len(), p);
    put_in(&mut parts[number], p, n)?;
    Ok(())
}

// The keys in so many parts.
pub(crate) fn filed_keys(
    alloc: Global,
    count: usize,
    keys: &[(Point, u32)],
) -> Result<Vec<KeyPart>, AllocError>
    requires some { 0 < count }
    requires once { HaveOneKey keys.now }
    ensures filed { IfOk result (λ parts. AreFiled parts.items) }
    ensures keys { IfOk result (λ parts. AreKeysOf keys.now parts.items) }
    ensures count { IfOk result (λ parts. length parts.items ≡ count) }
{
    let mut parts = bare_parts(alloc, count)?;
    for (p, n) in keys {
        file_key(&mut parts, *p, *n)?;
    }
    Ok(parts)
}

// The keys filed anew in so many parts, where there are fewer.
pub(crate) fn more_parts(
    alloc: Global,
    parts: &[KeyPart],
    count: usize,
) -> Result<Option<Vec<KeyPart>>, AllocError>
    requires some { 0 < count }
    requires filed { AreFiled parts.now }
    ensures filed { IfOk result (λ list. AreFiled (or_else (option_map (λ v. v.items) list) parts.now)) }
    ensures same { IfOk result (λ list. HasSameKeys parts.now (or_else (option_map (λ v. v.items) list) parts.now)) }
    ensures some { IfOk result (λ list. 0 < length (or_else (option_map (λ v. v.items) list) parts.now)) }
{
    if count <= parts.len() {
        return Ok(None);
    }
    let keys = joined(alloc, parts)?;
    Ok(Some(filed_keys(alloc, count, &keys)?))
}
