//! The vertices with a star after an exchange.

ghost use Rattle.std.specs.Prelude.{◌≡◌, ◌↔◌, ◌⊎◌, ◌<◌, ℕ, List, IfOk, OnOk, length, map, IsTrue};
ghost use Rattle.std.specs.Option.{option_map};
ghost use Rattle.point_order.specs.Sets.{IsIn, IsAscending};
ghost use Rattle.cell_stars.specs.Places.{AreFiled, part_at, part_of};
ghost use Rattle.cell_stars.specs.Plans.{AreBelow, or_else, set_all};
ghost use Rattle.cell_stars.specs.Moves.{AreKeysAfter, AreKeysWith, AreAgreed, HasSameKeys, IsKeyed, IsKeyAfter};
ghost use Rattle.cell_stars.specs.Moves.{IsNumberFor};

use crate::around::Around;
use crate::cells::Cells;
use crate::key_lists::{drop_key, put_key};
use crate::numbers::as_number;
use crate::parts::{KeyPart, count_for, more_parts, number_for};
use crate::plan::KeysPlan;
use crate::stock::{Stock, list_of};
use crate::writes::is_own;
use point_order::Point;
use std::alloc::{AllocError, Global};

// Puts the vertex of a star in, or takes it out where the star has no place.
fn write_key(keys: &mut Vec<(Point, u32)>, n: u32, around: &Around) -> Result<(), AllocError>
    requires { IsAscending (map (λ k. k.0) keys.old.items) }
    ensures order { OnOk result (IsAscending (map (λ k. k.0) keys.new.items)) }
    ensures keys { OnOk result ((k : ℕ × ℕ) → IsIn k keys.new.items ↔ IsKeyAfter keys.old.items n around.now k) }
{
    if !around.has_places() {
        drop_key(keys, around.vertex());
        return Ok(());
    }
    put_key(keys, around.vertex(), n)?;
    Ok(())
}

// The longer list, where there is one.
fn either<'a>(more: &'a Option<Vec<KeyPart>>, keys: &'a [KeyPart]) -> &'a [KeyPart]
    ensures { result.now ≡ or_else (option_map (λ v. v.items) more.now) keys.now }
{
    match more {
        Some(list) => list,
        None => keys,
    }
}

// The part with the number after one change.
fn newer<'a>(part: &'a KeyPart, change: &'a (u32, KeyPart), number: usize) -> &'a KeyPart
    ensures same { change.now.0 ≡ number → result.now ≡ change.now.1 }
    ensures other { ¬ (change.now.0 ≡ number) → result.now ≡ part.now }
{
    if change.0 as usize == number {
        &change.1
    } else {
        part
    }
}

// The part with the number after the changes.
fn part_after<'a>(
    base: &'a [KeyPart],
    changes: &'a [(u32, KeyPart)],
    number: usize,
) -> &'a [(Point, u32)]
    requires { number < length base.now }
    ensures { result.now ≡ part_at (set_all changes.now base.now) number }
{
    let mut part = &base[number];
    for change in changes {
        part = newer(part, change, number);
    }
    part.keys()
}

// The keys of a part after the star was written.
fn written_part(
    alloc: Global,
    stock: &mut Stock,
    part: &[(Point, u32)],
    n: u32,
    around: &Around,
) -> Result<KeyPart, AllocError>
    requires { IsAscending (map (λ k. k.0) part.now) }
    ensures order { IfOk result (λ made. IsAscending (map (λ k. k.0) made)) }
    ensures keys { IfOk result (λ made. (k : ℕ × ℕ) → IsIn k made ↔ IsKeyAfter part.now n around.now k) }
{
    let mut keys = list_of(&mut stock.keys, alloc, part.len().saturating_add(1))?;
    keys.extend_from_slice(part)?;
    write_key(&mut keys, n, around)?;
    Ok(KeyPart { keys })
}

// Adds the part that changes as the star is written.
fn add_change(
    alloc: Global,
    stock: &mut Stock,
    base: &[KeyPart],
    changes: &mut Vec<(u32, KeyPart)>,
    n: u32,
    around: &Around,
) -> Result<(), AllocError>
    requires some { 0 < length base.now }
    requires below { AreBelow (length base.now) changes.old.items }
    requires filed { AreFiled (set_all changes.old.items base.now) }
    ensures below { OnOk result (AreBelow (length base.now) changes.new.items) }
    ensures filed { OnOk result (AreFiled (set_all changes.new.items base.now)) }
    ensures keys { OnOk result (AreKeysWith (set_all changes.old.items base.now) n around.now
        (set_all changes.new.items base.now)) }
{
    let number = number_for(base.len(), around.vertex());
    let at = as_number(number)?;
    let part = written_part(alloc, stock, part_after(base, changes, number), n, around)?;
    changes.push((at, part))?;
    Ok(())
}

impl Cells {
    // Whether the star, which has this number, has a place, and had one before.
    fn is_keyed(&self, n: u32, around: &Around) -> bool
        requires { IsNumberFor self.now around.now.0 n }
        ensures { IsTrue result → IsKeyed (part_of self.now.keys around.now.0) n around.now }
    {
        around.has_places() && is_own(&self.stars, n, around.vertex())
    }

    // Whether that is so of all.
    fn are_keyed(&self, writes: &[(u32, Around)]) -> bool
        requires { (n : ℕ) (s : ℕ × List ℕ) → IsIn (n, s) writes.now → IsNumberFor self.now s.0 n }
        ensures { IsTrue result → (n : ℕ) (s : ℕ × List ℕ) → IsIn (n, s) writes.now →
            IsKeyed (part_of self.now.keys s.0) n s }
    {
        for (n, around) in writes {
            if !self.is_keyed(*n, around) {
                return false;
            }
        }
        true
    }

    // Adds the part that changes with a star. A star that had a place before has its vertex there yet.
    fn change_key(
        &self,
        alloc: Global,
        stock: &mut Stock,
        base: &[KeyPart],
        changes: &mut Vec<(u32, KeyPart)>,
        n: u32,
        around: &Around,
    ) -> Result<(), AllocError>
        requires some { 0 < length base.now }
        requires below { AreBelow (length base.now) changes.old.items }
        requires filed { AreFiled (set_all changes.old.items base.now) }
        requires number { IsNumberFor self.now around.now.0 n }
        requires there { IsKeyed (part_of self.now.keys around.now.0) n around.now →
            IsKeyed (part_of (set_all changes.old.items base.now) around.now.0) n around.now }
        ensures below { OnOk result (AreBelow (length base.now) changes.new.items) }
        ensures filed { OnOk result (AreFiled (set_all changes.new.items base.now)) }
        ensures keys { OnOk result (AreKeysWith (set_all changes.old.items base.now) n around.now
            (set_all changes.new.items base.now)) }
    {
        if self.is_keyed(n, around) {
            return Ok(());
        }
        add_change(alloc, stock, base, changes, n, around)
    }

    // The parts that change as the stars are written.
    fn changed_keys(
        &self,
        alloc: Global,
        stock: &mut Stock,
        base: &[KeyPart],
        writes: &[(u32, Around)],
    ) -> Result<Vec<(u32, KeyPart)>, AllocError>
        requires some { 0 < length base.now }
        requires filed { AreFiled base.now }
        requires same { HasSameKeys self.now.keys base.now }
        requires numbers { (n : ℕ) (s : ℕ × List ℕ) → IsIn (n, s) writes.now → IsNumberFor self.now s.0 n }
        requires agreed { AreAgreed writes.now }
        ensures below { IfOk result (λ list. AreBelow (length base.now) list.items) }
        ensures keys { IfOk result (λ list. AreKeysAfter self.now.keys writes.now (set_all list.items base.now)) }
    {
        let mut changes = list_of(&mut stock.parts, alloc, 1)?;
        for (n, around) in writes {
            self.change_key(alloc, stock, base, &mut changes, *n, around)?;
        }
        Ok(changes)
    }

    // What becomes of the keys as the stars are written, where so many stars are used.
    pub(crate) fn keys_after(
        &self,
        alloc: Global,
        stock: &mut Stock,
        writes: &[(u32, Around)],
        used: usize,
    ) -> Result<KeysPlan, AllocError>
        requires numbers { (n : ℕ) (s : ℕ × List ℕ) → IsIn (n, s) writes.now → IsNumberFor self.now s.0 n }
        requires agreed { AreAgreed writes.now }
        ensures below { IfOk result (λ plan. AreBelow
            (length (or_else (option_map (λ v. v.items) plan.more) self.now.keys)) plan.parts.items) }
        ensures keys { IfOk result (λ plan. AreKeysAfter self.now.keys writes.now
            (set_all plan.parts.items (or_else (option_map (λ v. v.items) plan.more) self.now.keys))) }
    {
        let _ = &self.keys;
        if self.are_keyed(writes) {
            return Ok(KeysPlan {
                more: None,
                parts: Vec::new(alloc),
            });
        }
        let more = more_parts(alloc, &self.keys, count_for(used))?;
        let parts = self.changed_keys(alloc, stock, either(&more, &self.keys), writes)?;
        Ok(KeysPlan { more, parts })
    }
}
