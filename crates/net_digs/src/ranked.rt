//! The cells of a net, sorted while they are packed, which is quick. That they stand in order is seen afterwards.

ghost use Rattle.std.specs.Prelude.{◌≡◌, ◌++◌, ◌∷◌, [], IfOk, OnOk};
ghost use Rattle.point_order.specs.CellOrder.{AreSameCells};
ghost use Rattle.cell_slots.specs.Nets.{cells_of_slots};

use cell_net::Net;
use cell_slots::Packed;
use point_order::Cell;
use rayon::slice::par_sort_unstable_by_key;
use std::alloc::{AllocError, Global};
use std::thread::Threads;

// Puts a cell that is packed, if there is one, behind the cells.
fn push_packed(cells: &mut Vec<Cell>, slot: &Packed) -> Result<(), AllocError>
    ensures { OnOk result (cells.new.items ≡ cells.old.items ++ cells_of_slots (slot.now ∷ [])) }
{
    match slot.cell() {
        Some(cell) => {
            cells.push(cell)?;
            Ok(())
        }
        None => Ok(()),
    }
}

// The cells that are packed.
fn cells_of_packed(alloc: Global, packed: &[Packed]) -> Result<Vec<Cell>, AllocError>
    ensures { IfOk result (λ cells. cells.items ≡ cells_of_slots packed.now) }
{
    let mut cells = Vec::with_capacity(alloc, packed.len())?;
    for slot in packed {
        push_packed(&mut cells, slot)?;
    }
    Ok(cells)
}

/// The cells of a net.
pub fn ranked(alloc: Global, net: Net) -> Result<Vec<Cell>, AllocError>
    ensures { IfOk result (λ cells. AreSameCells (cells_of_slots net) cells.items) }
{
    let mut packed = net.packed(alloc)?;
    packed.sort_unstable_by_key(|slot| slot.rank());
    let cells = cells_of_packed(alloc, &packed)?;
    Ok(cells)
}

/// The same, sorted by threads.
pub fn ranked_by_threads<R: Threads + Sync>(
    rt: &R,
    alloc: Global,
    net: Net,
) -> Result<Vec<Cell>, AllocError>
    ensures { IfOk result (λ cells. AreSameCells (cells_of_slots net) cells.items) }
{
    let mut packed = net.packed(alloc)?;
    par_sort_unstable_by_key(rt, &mut packed, |slot: &Packed| slot.rank());
    let cells = cells_of_packed(alloc, &packed)?;
    Ok(cells)
}
