//! One edit in a part.

ghost use Rattle.std.specs.Prelude.{◌≡◌, IfOk, MatchBool, MatchOption, OnErr};
ghost use Rattle.point_order.specs.Sets.{is_among};
ghost use Rattle.net_digs.specs.Linked.{ArePartLacking};
ghost use Rattle.cell_slots.specs.Nets.{AreMoved};
ghost use Rattle.cell_slots.specs.Parts.{Grow};
ghost use Rattle.std.specs.Prelude.{◌∷◌, []};
ghost use Rattle.edit_history.specs.declared.history.Edit.TheVariants.{Add, Take};
ghost use Rattle.part_edits.specs.Changes.{ArePartKnown, IsMade};

use crate::take::take_here;
use edit_history::{Edit, Reply};
use net_owner::LinkedCells;
use point_order::Point;
use std::alloc::{AllocError, Global};
use std::collections::BTreeSet;

// Whether the point is known to be there.
pub(crate) fn has(known: &BTreeSet<Point>, p: Point) -> bool
    ensures { result ≡ is_among p known.now.keys }
{
    known.contains(&p)
}

// Adds a point that is none of the set, where all that it changes is here, and answers whether it is.
pub(crate) fn add_here(
    alloc: Global,
    linked: &mut LinkedCells,
    p: Point,
) -> Result<bool, AllocError>
    requires { ArePartLacking p linked.old.cells }
    ensures added { IfOk result (λ could. MatchBool could (Grow (p ∷ []) linked.old.cells linked.new.cells)
        (linked.new.cells ≡ linked.old.cells)) }
    ensures refused { OnErr result (linked.new.cells ≡ linked.old.cells) }
{
    let found = linked.add_point_here(alloc, p)?;
    match found {
        Some(_arrival) => Ok(true),
        None => Ok(false),
    }
}

/// Adds a point. There is no reply where a cell that has to be known stands elsewhere; then nothing changed.
///
/// # Errors
/// Want of memory. The cells are then as before.
pub fn try_add(
    alloc: Global,
    linked: &mut LinkedCells,
    known: &BTreeSet<Point>,
    p: Point,
) -> Result<Option<Reply>, AllocError>
    requires { ArePartKnown known.now.keys (Add p) linked.old.cells }
    ensures made { IfOk result (λ found. MatchOption found (AreMoved linked.old.cells linked.new.cells)
        (λ reply. IsMade known.now.keys (Add p) reply linked.old.cells linked.new.cells)) }
    ensures refused { OnErr result (AreMoved linked.old.cells linked.new.cells) }
{
    let _ = p.key();
    if has(known, p) {
        return Ok(Some(Reply::Duplicate));
    }
    let could = add_here(alloc, linked, p)?;
    if could {
        return Ok(Some(Reply::Inserted));
    }
    Ok(None)
}

/// Takes a point. There is no reply where a cell that has to be known stands elsewhere; then nothing changed.
///
/// # Errors
/// Want of memory. The cells are then as before, in any order.
pub fn try_take(
    alloc: Global,
    linked: &mut LinkedCells,
    known: &BTreeSet<Point>,
    p: Point,
) -> Result<Option<Reply>, AllocError>
    requires { ArePartKnown known.now.keys (Take p) linked.old.cells }
    ensures made { IfOk result (λ found. MatchOption found (AreMoved linked.old.cells linked.new.cells)
        (λ reply. IsMade known.now.keys (Take p) reply linked.old.cells linked.new.cells)) }
    ensures refused { OnErr result (AreMoved linked.old.cells linked.new.cells) }
{
    if !has(known, p) {
        return Ok(Some(Reply::Missing));
    }
    let found = take_here(alloc, linked, p)?;
    match found {
        Some(is_removed) => {
            if is_removed {
                return Ok(Some(Reply::Removed));
            }
            Ok(Some(Reply::Flat))
        }
        None => Ok(None),
    }
}

/// Makes an edit. There is no reply where a cell that has to be known stands elsewhere, and none to a move; then
/// nothing changed.
///
/// # Errors
/// Want of memory. The cells are then as before, in any order.
pub fn try_change(
    alloc: Global,
    linked: &mut LinkedCells,
    known: &BTreeSet<Point>,
    edit: Edit,
) -> Result<Option<Reply>, AllocError>
    requires { ArePartKnown known.now.keys edit linked.old.cells }
    ensures made { IfOk result (λ found. MatchOption found (AreMoved linked.old.cells linked.new.cells)
        (λ reply. IsMade known.now.keys edit reply linked.old.cells linked.new.cells)) }
    ensures refused { OnErr result (AreMoved linked.old.cells linked.new.cells) }
{
    match edit {
        Edit::Add(p) => try_add(alloc, linked, known, p),
        Edit::Take(p) => try_take(alloc, linked, known, p),
        Edit::Move(_a, _b) => Ok(None),
    }
}
