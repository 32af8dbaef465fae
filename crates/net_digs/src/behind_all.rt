//! The cells behind the facets of those that were taken out of the net.

ghost use Rattle.std.specs.Prelude.{◌++◌, IfOk, List, OnOk, ℕ};
ghost use Rattle.point_order.specs.Facets.{facets_of};
ghost use Rattle.point_order.specs.Sets.{IsIn};
ghost use Rattle.cell_slots.specs.Clouds.{AreCellsOf, AreCellsOfSome};
ghost use Rattle.cell_slots.specs.Nets.{cells_of_slots};
ghost use Rattle.cell_slots.specs.Stars.{AreBehind, AreBehindAll};

use cell_net::Net;
use cell_slots::Spot;
use point_order::Cell;
use std::alloc::{AllocError, Global};

// Adds the cells behind the facets of a cell.
fn push_behind(
    net: &Net,
    gone: &[Spot],
    spot: &Spot,
    cells: &mut Vec<Cell>,
) -> Result<(), AllocError>
    requires cells { AreCellsOfSome (cells_of_slots net.now ++ gone.now) }
    requires among { IsIn spot.now gone.now }
    ensures { OnOk result ((s : List ℕ) → AreCellsOf s (cells_of_slots net.now ++ gone.now) →
        AreBehind s spot.now (facets_of spot.now) cells.old.items cells.new.items) }
{
    let facets = spot.cell().facets();
    let mut k = 0;
    for facet in &facets {
        cells.push(net.behind(gone, spot, facet, k).to_cell())?;
        k += 1;
    }
    Ok(())
}

/// The cells that were taken out, and those behind their facets, some more than once.
pub fn cells_behind(
    alloc: Global,
    net: &Net,
    gone: &[Spot],
    star: &[Cell],
) -> Result<Vec<Cell>, AllocError>
    requires cells { AreCellsOfSome (cells_of_slots net.now ++ gone.now) }
    ensures { IfOk result (λ cells. (s : List ℕ) → AreCellsOf s (cells_of_slots net.now ++ gone.now) →
        AreBehindAll s gone.now star.now cells.items) }
{
    let mut cells = Vec::from_slice(alloc, star)?;
    for spot in gone {
        push_behind(net, gone, spot, &mut cells)?;
    }
    Ok(cells)
}
