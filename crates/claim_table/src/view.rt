//! What the table's rule speaks of. No value of these types but `Key` is ever made.

use crate::slot::Slot;
use atomic_table::{Seat, Table, TableRule};
use bucket_grid::Grid;
use cell_store::Mesh;
use edit_history::Entry;
use std::alloc::Global;
use std::collections::LinkedList;
use std::snapshot::Snapshot;

/// What a table is told once.
#[derive(Drop)]
pub struct Key {
    pub grid: Grid,
    pub parts: u32,
    /// How many entries there may be at most.
    pub most: u64,
    /// The mesh with which it began.
    pub mesh: Snapshot<Mesh>,
}

/// A step of a pass, with the word that it found; a claim found 0.
pub enum Act {
    Claim(u32),
    Miss(u32, u64),
    Commit(u64),
    Release(u32),
    Look(u64),
}

/// A pass that was split off and has no seat of its own yet.
pub struct Child {
    pub first: u32,
    pub parts: u32,
    pub left: u64,
    pub seen: u64,
    pub made: LinkedList<Entry>,
}

/// What a pass knows. A view with no part is that of a seat whose pass was joined to another.
pub struct View {
    /// The table: its grid, its number of parts, and the entries with which it began.
    pub grid: Grid,
    pub all: u32,
    pub opening: LinkedList<Entry>,
    pub first: u32,
    pub parts: u32,
    pub left: u64,
    pub seen: u64,
    pub since: u64,
    /// For each bucket the content that the pass owes, if it holds it.
    pub held: LinkedList<Option<Slot>>,
    pub made: LinkedList<Entry>,
    pub known: LinkedList<Entry>,
    pub trail: LinkedList<Act>,
    pub child: Option<Child>,
}

pub struct Law;

impl TableRule<Option<Slot>, View, Key> for Law {
    ghost use Rattle.claim_table.specs.Rule.{Rule, opening_view};

    ghost holds = { Rule };

    ghost first = { opening_view };
}

pub type Board = Table<Option<Slot>, View, Key, Law, Global>;

pub type Place = Seat<Option<Slot>, View>;
