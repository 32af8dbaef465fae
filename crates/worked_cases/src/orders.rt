//! What a pass is told to do.

ghost use Rattle.std.specs.Prelude.{◌≡◌};
ghost use Rattle.grid_claims.specs.Tries.{IsStill};

use crate::gates::Watcher;
use crate::reading::Word;
use crate::tables::{put_edited, put_shown};
use crate::telling::Answer;
use edit_gates::{Gate, OpenGate};
use edit_history::Edit;
use edit_workers::{Left, List, work};
use grid_claims::{MeshTable, Pass, Receipt, Refused, Snapshot};
use std::alloc::{AllocError, Global};

// Tries an edit.
fn try_edit_once<G: Gate>(
    alloc: Global,
    table: &MeshTable,
    pass: &mut Pass,
    tag: u32,
    edit: Edit,
    gate: &G,
) -> Result<Receipt, Refused>
    requires { pass.old.table ≡ table.now }
    ensures { IsStill pass.old pass.new }
{
    table.try_edit(alloc, pass, tag, edit, gate)
}

// Tries an edit, and once more where memory was wanting.
pub(crate) fn edited<G: Gate>(
    alloc: Global,
    table: &MeshTable,
    pass: &mut Pass,
    pair: (u32, Edit),
    gate: &G,
) -> Result<Receipt, Refused>
    requires { pass.old.table ≡ table.now }
    ensures { IsStill pass.old pass.new }
{
    let (tag, edit) = pair;
    let again = edit;
    match try_edit_once(alloc, table, pass, tag, again, gate) {
        Err(Refused::Memory) => try_edit_once(alloc, table, pass, tag, edit, gate),
        answer => answer,
    }
}

// Tries a snapshot.
fn try_snapshot_once(alloc: Global, table: &MeshTable, pass: &mut Pass) -> Result<Snapshot, Refused>
    requires { pass.old.table ≡ table.now }
    ensures { IsStill pass.old pass.new }
{
    table.try_snapshot(alloc, pass)
}

// Tries a snapshot, and once more where memory was wanting.
pub(crate) fn shown(alloc: Global, table: &MeshTable, pass: &mut Pass) -> Result<Snapshot, Refused>
    requires { pass.old.table ≡ table.now }
    ensures { IsStill pass.old pass.new }
{
    match try_snapshot_once(alloc, table, pass) {
        Err(Refused::Memory) => try_snapshot_once(alloc, table, pass),
        answer => answer,
    }
}

// Has a list worked on, if the pass may make so many edits; else all of it is left over.
pub(crate) fn worked<G: Gate>(
    alloc: Global,
    table: &MeshTable,
    pass: &mut Pass,
    list: List,
    gate: &G,
) -> Result<Left, AllocError>
    requires { pass.old.table ≡ table.now }
    ensures { IsStill pass.old pass.new }
{
    if list.pairs.len() as u64 <= pass.left() {
        work(alloc, table, pass, &list, gate)
    } else {
        let List { pairs } = list;
        Ok(Left { pairs })
    }
}

// Has the edits of the words worked on, and puts down the tags of those that are left over.
fn work_on(alloc: Global, told: &mut Answer, table: &MeshTable, pass: &mut Pass, words: &str)
    requires { pass.old.table ≡ table.now }
    ensures { IsStill pass.old pass.new }
{
    let pairs = told.all(words);
    match worked(alloc, table, pass, List { pairs }, &OpenGate) {
        Ok(left) => {
            told.put(" left over");
            for (tag, _) in &left.pairs {
                write!(told, " {tag}");
            }
            told.put(';');
        }
        Err(_) => told.fail(),
    }
}

// Does what one word says.
fn follow_word(alloc: Global, told: &mut Answer, table: &MeshTable, pass: &mut Pass, word: &str)
    requires { pass.old.table ≡ table.now }
    ensures { IsStill pass.old pass.new }
{
    match word {
        "look" => write!(told, " look {};", table.look(pass)),
        "shot" => put_shown(alloc, told, &shown(alloc, table, pass)),
        _ => match <(u32, Edit)>::of(word) {
            Some(pair) => {
                let watcher = Watcher::new();
                put_edited(told, &edited(alloc, table, pass, pair, &watcher));
                told.put(" told");
                watcher.put_zero(told);
                watcher.put_other(told);
                told.put(";");
            }
            None => told.put(" no order;"),
        },
    }
}

// Does the orders, one by one, and puts down what each comes to.
pub(crate) fn follow(
    alloc: Global,
    told: &mut Answer,
    table: &MeshTable,
    pass: &mut Pass,
    orders: &str,
)
    requires { pass.old.table ≡ table.now }
    ensures { IsStill pass.old pass.new }
{
    if let Some(words) = orders.strip_prefix("work ") {
        work_on(alloc, told, table, pass, words);
        return;
    }
    for word in orders.split_whitespace() {
        follow_word(alloc, told, table, pass, word);
    }
}
