//! A round in which the workers do nothing but claim: what they have and what is left is all that there was.

ghost use Rattle.std.specs.Prelude.{◌≡◌, ◌^◌, ◌<◌, ◌++◌, [], length, All, IfOk, IsPermutation};
ghost use Rattle.std.specs.List.{flat_map};
ghost use Rattle.round_table.specs.Rounds.{held};
ghost use Rattle.round_table.specs.Taken.{IsTaking, takes};

use crate::pass::Pass;
use crate::running::{Job, round};
use crate::table::RoundTable;
use std::alloc::{AllocError, Global};
use std::marker::{Send, Sync};
use std::thread::Threads;

/// The buckets that a worker wishes for, and the contents that it has.
#[derive(Drop)]
pub struct Taking<T> {
    pub wished: Vec<u32>,
    pub hand: Vec<T>,
}

// Claims a bucket, if it is one and there is memory for its content.
fn take_one<T: Drop>(table: &RoundTable<T>, pass: &mut Pass<T>, hand: &mut Vec<T>, bucket: u32)
    requires { pass.old.table ≡ table.now }
    ensures { IsTaking table.now.contents pass.old pass.new hand.old.items hand.new.items }
{
    if bucket as usize >= table.count() || hand.reserve(1).is_err() {
        return;
    }
    if let Ok(content) = table.claim(pass, bucket) {
        hand.push_reserved(content);
    }
}

// Claims buckets, in turn.
fn take_each<T: Drop>(table: &RoundTable<T>, pass: &mut Pass<T>, hand: &mut Vec<T>, wished: &[u32])
    requires { pass.old.table ≡ table.now }
    ensures { IsTaking table.now.contents pass.old pass.new hand.old.items hand.new.items }
{
    for bucket in wished {
        take_one(table, pass, hand, *bucket);
    }
}

/// Claims what is wished for.
pub struct Takes;

impl<T: Drop> Job<T, Taking<T>> for Takes {
    ghost use Rattle.round_table.specs.Taken.{takes};

    ghost makes = { takes };

    fn work(&self, table: &RoundTable<T>, pass: &mut Pass<T>, state: &mut Taking<T>) {
        let Taking { wished, hand } = state;
        take_each(table, pass, hand, wished);
    }
}

/// Workers claim side by side what they wish for. What they have in the end, and what is left, is all that there was,
/// each once.
///
/// # Errors
/// Want of memory. All is then dropped.
pub fn take_side_by_side<T: Drop + Send + Sync, R: Threads + Sync>(
    rt: &R,
    alloc: Global,
    contents: Vec<T>,
    states: Vec<Taking<T>>,
) -> Result<(Vec<Taking<T>>, Vec<Option<T>>), AllocError>
    requires some { 0 < length contents.items }
    requires few { length states.items < 2 ^ 32 }
    requires empty { All (λ s. s.hand.items ≡ []) states.items }
    ensures { IfOk result (λ r. IsPermutation contents.items
        (flat_map (λ s. s.hand.items) r.0.items ++ held r.1.items)) }
{
    let (states, rest) = round(rt, alloc, contents, states, &Takes)?;
    Ok((states, rest))
}
