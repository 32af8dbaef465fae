//! What the table's rule speaks of. No value of these types but `Key` is ever made.

use atomic_table::{Seat, Table, TableRule};
use std::alloc::Global;
use std::collections::LinkedList;
use std::snapshot::Snapshot;

/// What a table is told once: its contents and how many passes it has.
#[derive(Drop)]
pub struct Key<T> {
    pub contents: Snapshot<Vec<T>>,
    pub workers: u32,
}

/// What a pass has claimed: its number, and its buckets in the order of its claims.
pub struct Hand {
    pub number: u32,
    pub claims: LinkedList<u32>,
}

/// What a seat knows: the contents with which the table was opened, its number of passes, and the hands of the passes
/// that it stands for. One with no hand knows nothing.
pub struct View<T> {
    pub contents: LinkedList<T>,
    pub workers: u32,
    pub hands: LinkedList<Hand>,
}

pub struct Law;

impl<T> TableRule<Option<T>, View<T>, Key<T>> for Law {
    ghost use Rattle.round_table.specs.Rule.{IsRule, opening_view};

    ghost holds = { IsRule };

    ghost first = { opening_view };
}

pub type Board<T> = Table<Option<T>, View<T>, Key<T>, Law, Global>;

pub type Place<T> = Seat<Option<T>, View<T>>;
