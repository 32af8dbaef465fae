//! Makes the complex of the points of the edit file on standard input at once, and prints how many points, cells and
//! hull triangles there are, for measuring. The file's edits and radii are passed over.
//!
//! It never prints a time: `bench/cloud` of the repository takes that from outside.
#![tactic(auto)]

use edit_files::read_file;
use edit_history::find_four;
use net_digs::complex_of_points;
use point_order::{Cell, points_in_order};
use std::io;
use std::io::Read;

fn is_full(cell: &Cell) -> bool {
    match cell {
        Cell::Full(_) => true,
        Cell::Open(_) => false,
    }
}

fn main(rt: HostRuntime) -> io::Result<()> {
    let alloc = rt.alloc();
    let mut text = Vec::new(alloc);
    rt.stdin().read_to_end(&mut text)?;
    let Ok(file) = read_file(alloc, &text) else {
        return Err(io::ErrorKind::InvalidInput.into());
    };
    let points = points_in_order(file.points);
    if find_four(&points).is_err() {
        println!(rt; "flat")?;
        return Ok(());
    }
    let cells = complex_of_points(alloc, &points)?;
    let full = cells.iter().filter(|cell| is_full(cell)).count();
    println!(rt;
        "points {} cells {} hull {}",
        points.len(),
        full,
        cells.len() - full
    )?;
    Ok(())
}
