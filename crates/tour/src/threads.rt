//! Two threads edit one mesh, each by a pass of its own, and one of them takes a snapshot.

ghost use Rattle.std.specs.Prelude.{◌≡◌, ◌≤◌, ◌^◌, false, length, IfOk};
ghost use Rattle.hanskup.specs.Edits.{is_move};
ghost use Rattle.hanskup.specs.Passes.{Opened};
ghost use Rattle.hanskup.specs.Tries.{IsStill, opening_pass};

use anyhow::bail;
use hanskup::buckets::{Mesh, begin};
use hanskup::table::{MeshTable, OpenGate, Pass, Receipt, Refused, Snapshot};
use hanskup::{Edit, Grid, Point, opening_points};
use std::alloc::Global;
use std::thread::{Threads, join};

// How often an edit is tried. A try fails where another pass has a bucket in hand that the edit needs.
const TRIES: u32 = 1 << 24;

// The corners of a cube.
const CUBE: [[i64; 3]; 8] = [
    [0, 0, 0],
    [0, 0, 1],
    [0, 1, 0],
    [0, 1, 1],
    [1, 0, 0],
    [1, 0, 1],
    [1, 1, 0],
    [1, 1, 1],
];

// Tries an edit.
fn tried(
    table: &MeshTable,
    alloc: Global,
    pass: &mut Pass,
    tag: u32,
    edit: Edit,
) -> Result<Receipt, Refused>
    requires table { pass.old.table ≡ table.now }
    requires still { is_move edit ≡ false }
    ensures { IsStill pass.old pass.new }
{
    table.try_edit(alloc, pass, tag, edit, &OpenGate)
}

// Tries to add a point until it is done, and answers whether it was.
fn added(table: &MeshTable, alloc: Global, pass: &mut Pass, tag: u32, p: Point) -> bool
    requires { pass.old.table ≡ table.now }
    ensures { IsStill pass.old pass.new }
{
    for _ in 0..TRIES {
        match tried(table, alloc, pass, tag, Edit::Add(p)) {
            Ok(_) => return true,
            Err(Refused::Busy { .. }) => {}
            Err(_) => return false,
        }
    }
    false
}

// Adds the points of a small cube, all by one pass, and answers how many were added.
fn add_cube(table: &MeshTable, alloc: Global, mut pass: Pass, low: i64) -> (Pass, u32)
    requires { pass.table ≡ table.now }
    ensures { IsStill pass result.0 }
{
    let mut count: u32 = 0;
    for [x, y, z] in CUBE {
        let corner = Point::new(
            low.saturating_add(x),
            low.saturating_add(y),
            low.saturating_add(z),
        );
        if let Ok(p) = corner
            && added(table, alloc, &mut pass, count, p)
        {
            count = count.saturating_add(1);
        }
    }
    (pass, count)
}

// Two cubes, each added by a thread.
fn add_cubes<R: Threads + Sync>(
    rt: &R,
    alloc: Global,
    table: &MeshTable,
    one: Pass,
    two: Pass,
) -> ((Pass, u32), (Pass, u32))
    requires one { one.table ≡ table.now }
    requires two { two.table ≡ table.now }
    ensures one { IsStill one result.0.0 }
    ensures two { IsStill two result.1.0 }
{
    join(
        rt,
        || -> (Pass, u32)
            requires { one.table ≡ table.now }
            ensures { IsStill one result.0 }
        { add_cube(table, alloc, one, 100) },
        || -> (Pass, u32)
            requires { two.table ≡ table.now }
            ensures { IsStill two result.0 }
        { add_cube(table, alloc, two, 16000) },
    )
}

// Takes a snapshot.
fn snapped(table: &MeshTable, alloc: Global, pass: &mut Pass) -> Result<Snapshot, Refused>
    requires { pass.old.table ≡ table.now }
    ensures { IsStill pass.old pass.new }
{
    table.try_snapshot(alloc, pass)
}

// How many points were added near and far, and how many entries and cells a snapshot of the whole has.
#[derive(Drop)]
struct Whole {
    near: u32,
    far: u32,
    entries: usize,
    cells: usize,
}

// Splits a pass for two cubes, joins the two passes again, and looks at the whole.
fn add_and_look<R: Threads + Sync>(
    rt: &R,
    alloc: Global,
    table: &MeshTable,
    mut one: Pass,
) -> (Pass, Result<Whole, Refused>)
    requires table { one.table ≡ table.now }
    requires parts { one.parts ≡ 2 }
    requires left { 50 ≤ one.left }
    ensures { IsStill one result.0 }
{
    let two = match table.split(alloc, &mut one, 1, 50) {
        Ok(two) => two,
        Err(_) => return (one, Err(Refused::Memory)),
    };
    let ((mut one, near), (two, far)) = add_cubes(rt, alloc, table, one, two);
    table.join(&mut one, two);
    let whole = match snapped(table, alloc, &mut one) {
        Ok(Snapshot { history, complex }) => Ok(Whole {
            near,
            far,
            entries: history.len(),
            cells: complex.len(),
        }),
        Err(why) => Err(why),
    };
    (one, whole)
}

// A table for the mesh, and its first pass.
fn opened(alloc: Global, mesh: Mesh) -> anyhow::Result<(MeshTable, Pass)>
    ensures parts { IfOk result (λ o. o.0.parts ≡ 2) }
    ensures pass { IfOk result (λ o. o.1 ≡ opening_pass o.0 100) }
{
    if mesh.count() > 1000 {
        bail!("the history is long");
    }
    Ok(MeshTable::open(alloc, mesh, 2, 100)?)
}

// Tells what came of the edits side by side, and how many entries the mesh has.
fn show_whole(rt: &impl Print, whole: &Whole, count: u64) -> anyhow::Result<()> {
    let Whole {
        near,
        far,
        entries,
        cells,
    } = whole;
    println!(rt; "{near} and {far} points were added side by side")?;
    println!(rt; "a snapshot has {entries} entries and {cells} cells")?;
    println!(rt; "the mesh has {count} entries")?;
    Ok(())
}

// The mesh over 64 buckets that begins with the first four of the points which do not lie in one plane.
fn mesh_of(alloc: Global, points: &[Point]) -> anyhow::Result<Mesh>
    requires { length points.now ≤ 2 ^ 32 }
{
    let four = opening_points(points)?;
    let grid = Grid::new(4)?;
    Ok(begin(alloc, grid, four)?)
}

/// Adds two cubes to the mesh of four corners by two threads side by side, and looks at the whole by a snapshot.
/// Whatever comes of that, the table is closed.
pub(crate) fn edit_side_by_side<R: Threads + Sync + Print>(
    rt: &R,
    alloc: Global,
    corners: &[Point; 4],
) -> anyhow::Result<()> {
    let mesh = mesh_of(alloc, corners)?;
    let (table, pass) = opened(alloc, mesh)?;
    let (pass, whole) = add_and_look(rt, alloc, &table, pass);
    let count = table.close(pass).count();
    show_whole(rt, &whole?, count)
}
