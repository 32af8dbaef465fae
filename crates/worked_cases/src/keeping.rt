//! Two passes, of which one is kept at a moment of its edit.

ghost use Rattle.std.specs.Prelude.{◌≡◌};
ghost use Rattle.grid_claims.specs.Tries.{IsStill};
ghost use Rattle.worked_cases.specs.Two.{AreTwo};

use crate::gates::{Flags, Keeper, awaits};
use crate::orders::{edited, follow};
use crate::passes::{ended, opened_two, put_mesh};
use crate::reading::{Word, list_at, number_at};
use crate::tables::put_edited;
use crate::telling::Answer;
use bucket_grid::Grid;
use cell_store::Mesh;
use edit_gates::Moment;
use edit_history::Edit;
use grid_claims::{MeshTable, Pass, Receipt, Refused};
use std::alloc::{AllocError, Global};
use std::sync::atomic::Ordering;
use std::thread::{Threads, join};

// The moment of this name.
fn moment_of(name: &str) -> Option<Moment> {
    match name {
        "Start" => Some(Moment::Start),
        "Ready" => Some(Moment::Ready),
        "Committed" => Some(Moment::Committed),
        "Done" => Some(Moment::Done),
        _ => None,
    }
}

// Tries an edit whose pass is kept.
fn kept_try(
    alloc: Global,
    table: &MeshTable,
    mut pass: Pass,
    tag: u32,
    edit: Edit,
    flags: &Flags,
    moment: Moment,
) -> (Pass, Result<Receipt, Refused>)
    requires { pass.table ≡ table.now }
    ensures { IsStill pass result.0 }
{
    let answer = edited(
        alloc,
        table,
        &mut pass,
        (tag, edit),
        &Keeper { flags, moment },
    );
    (pass, answer)
}

// Does orders once another pass is kept, and then lets that one go on.
fn free_follow(
    alloc: Global,
    table: &MeshTable,
    mut pass: Pass,
    orders: &str,
    flags: &Flags,
) -> (Pass, Answer)
    requires { pass.table ≡ table.now }
    ensures { IsStill pass result.0 }
{
    let _ = awaits(&flags.here);
    let mut told = Answer::new(alloc);
    follow(alloc, &mut told, table, &mut pass, orders);
    flags.go.store(true, Ordering::SeqCst);
    (pass, told)
}

// An edit by one pass, which is kept, beside orders that another one does.
fn side_by_side<R: Threads + Sync>(
    rt: &R,
    alloc: Global,
    table: &MeshTable,
    kept: Pass,
    pair: (u32, Edit),
    free: Pass,
    orders: &str,
    flags: &Flags,
    moment: Moment,
) -> ((Pass, Result<Receipt, Refused>), (Pass, Answer))
    requires kept { kept.table ≡ table.now }
    requires free { free.table ≡ table.now }
    ensures kept { IsStill kept result.0.0 }
    ensures free { IsStill free result.1.0 }
{
    let (tag, edit) = pair;
    join(
        rt,
        || -> (Pass, Result<Receipt, Refused>)
            requires { kept.table ≡ table.now }
            ensures { IsStill kept result.0 }
        { kept_try(alloc, table, kept, tag, edit, flags, moment) },
        || -> (Pass, Answer)
            requires { free.table ≡ table.now }
            ensures { IsStill free result.0 }
        { free_follow(alloc, table, free, orders, flags) },
    )
}

// What came of a kept edit and of the orders beside it.
#[derive(Drop)]
struct Came {
    kept: Result<Receipt, Refused>,
    free: Answer,
}

// The same for the first pass or the other one, whichever is to be kept.
fn keep_one<R: Threads + Sync>(
    rt: &R,
    alloc: Global,
    table: &MeshTable,
    passes: (Pass, Pass),
    number: u32,
    pair: (u32, Edit),
    orders: &str,
    flags: &Flags,
    moment: Moment,
) -> (Pass, Pass, Came)
    requires first { passes.0.table ≡ table.now }
    requires other { passes.1.table ≡ table.now }
    ensures first { IsStill passes.0 result.0 }
    ensures other { IsStill passes.1 result.1 }
{
    let (zero, one) = passes;
    if number == 0 {
        let ((zero, kept), (one, free)) = side_by_side(
            rt, alloc, table, zero, pair, one, orders, flags, moment,
        );
        (zero, one, Came { kept, free })
    } else {
        let ((one, kept), (zero, free)) = side_by_side(
            rt, alloc, table, one, pair, zero, orders, flags, moment,
        );
        (zero, one, Came { kept, free })
    }
}

// Has the pass that was free do orders.
fn follow_free(
    alloc: Global,
    told: &mut Answer,
    table: &MeshTable,
    zero: &mut Pass,
    one: &mut Pass,
    number: u32,
    orders: &str,
)
    requires first { zero.old.table ≡ table.now }
    requires other { one.old.table ≡ table.now }
    ensures first { IsStill zero.old zero.new }
    ensures other { IsStill one.old one.new }
{
    if number == 0 {
        follow(alloc, told, table, one, orders);
    } else {
        follow(alloc, told, table, zero, orders);
    }
}

// Has one of two passes kept in its edit and the other one do orders, and more afterwards, to the end of the table.
fn keep_and_follow<R: Threads + Sync>(
    rt: &R,
    alloc: Global,
    told: &mut Answer,
    table: MeshTable,
    passes: (Pass, Pass),
    number: u32,
    pair: (u32, Edit),
    moment: Moment,
    orders: &str,
    later: &str,
) -> Mesh
    requires { AreTwo table passes.0 passes.1 passes.0.parts }
{
    let flags = Flags::none();
    let (mut zero, mut one, came) = keep_one(
        rt, alloc, &table, passes, number, pair, orders, &flags, moment,
    );
    put_came(told, came, flags.seen.load(Ordering::SeqCst));
    follow_free(alloc, told, &table, &mut zero, &mut one, number, later);
    ended(table, zero, one)
}

// Puts down what the free pass did meanwhile, and what the kept one answered.
fn put_came(told: &mut Answer, came: Came, seen: bool) {
    let Came { kept, free } = came;
    told.put_answer(free);
    told.put(if seen { " kept" } else { " not kept" });
    put_edited(told, &kept);
}

/// Plays a scene of a kept pass.
///
/// # Errors
/// Want of memory.
pub(crate) fn play<R: Threads + Sync>(
    rt: &R,
    alloc: Global,
    told: &mut Answer,
    grid: Grid,
    lists: &str,
) -> Result<(), AllocError> {
    let points = told.all(list_at(lists, 0));
    let number = number_at(list_at(lists, 1), 0);
    let moment = moment_of(list_at(lists, 1).split_whitespace().nth(1).unwrap_or(""));
    let (Some(moment), Some(pair)) = (moment, <(u32, Edit)>::of(list_at(lists, 2))) else {
        told.put("no such moment");
        return Ok(());
    };
    let two = opened_two(alloc, told, grid, &points, (2, 16), (1, 8))?;
    let Some((table, zero, one)) = two else {
        return Ok(());
    };
    let (orders, later) = (list_at(lists, 3), list_at(lists, 4));
    let mesh = keep_and_follow(
        rt,
        alloc,
        told,
        table,
        (zero, one),
        number,
        pair,
        moment,
        orders,
        later,
    );
    put_mesh(alloc, told, &mesh, points.len())
}
