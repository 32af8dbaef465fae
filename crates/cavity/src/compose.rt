//! Two changes, one after the other, as one.

ghost use Rattle.std.specs.Prelude.{List, IfOk, OnOk};
ghost use Rattle.point_order.specs.declared.cell.Cell.{Cell};
ghost use Rattle.list_laws.specs.Lists.{Gathers};
ghost use Rattle.cell_changes.specs.Changes.{IsChange};
ghost use Rattle.cavity.specs.Both.{AreOfBoth, IsOtherThan};

use crate::fill_hole::Fresh;
use point_order::{Cell, has_cell};
use std::alloc::{AllocError, Global};

// Adds the cells that are none of the others.
fn add_but(list: &mut Vec<Cell>, cells: &[Cell], others: &[Cell]) -> Result<(), AllocError>
    ensures { OnOk result (Gathers (IsOtherThan others.now) cells.now list.old.items list.new.items) }
{
    for c in cells {
        if !has_cell(others, c) {
            list.push(*c)?;
        }
    }
    Ok(())
}

// The cells of two lists, each without those of another.
fn of_both(
    alloc: Global,
    first: &[Cell],
    but_first: &[Cell],
    second: &[Cell],
    but_second: &[Cell],
) -> Result<Vec<Cell>, AllocError>
    ensures { IfOk result (λ list. AreOfBoth first.now but_first.now second.now but_second.now list.items) }
{
    let mut list = Vec::with_capacity(alloc, first.len().saturating_add(second.len()))?;
    add_but(&mut list, first, but_first)?;
    add_but(&mut list, second, but_second)?;
    Ok(list)
}

/// Two changes, one after the other, as one: a cell that the one brings and the other takes away is in neither list.
///
/// # Errors
/// Want of memory.
pub fn composed(alloc: Global, first: &Fresh, second: &Fresh) -> Result<Fresh, AllocError>
    ensures gone { IfOk result (λ f. AreOfBoth first.now.gone.items second.now.fresh.items second.now.gone.items
        first.now.fresh.items f.gone.items) }
    ensures fresh { IfOk result (λ f. AreOfBoth first.now.fresh.items second.now.gone.items second.now.fresh.items
        first.now.gone.items f.fresh.items) }
    ensures change { IfOk result (λ f. (s t u : List Cell) → IsChange s t first.now.gone.items first.now.fresh.items →
        IsChange t u second.now.gone.items second.now.fresh.items → IsChange s u f.gone.items f.fresh.items) }
{
    Ok(Fresh {
        gone: of_both(
            alloc,
            &first.gone,
            &second.fresh,
            &second.gone,
            &first.fresh,
        )?,
        fresh: of_both(
            alloc,
            &first.fresh,
            &second.gone,
            &second.fresh,
            &first.gone,
        )?,
    })
}
