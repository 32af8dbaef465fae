//! A whole round.

ghost use Rattle.std.specs.Prelude.{◌≡◌, ◌^◌, ◌<◌, ◌≤◌, length, IfOk};
ghost use Rattle.std.specs.Thread.{IsSync, IsSend};
ghost use Rattle.round_table.specs.Rounds.{fresh};
ghost use Rattle.round_table.specs.Jobs.{HasMore, IsRound, AreFresh, AreWorked, IsWorked};

use crate::pass::Pass;
use crate::table::RoundTable;
use crate::worker::Worker;
use std::alloc::{AllocError, Global};
use std::marker::{Send, Sync};
use std::thread::{Threads, available_parallelism, for_each_mut};

/// What each worker of a round does. It has the table by reference, and a pass and a state of its own.
pub trait Job<T: Drop, S> {
    ghost use Rattle.std.specs.Prelude.{◌≡◌, ℕ, List};
    ghost use Rattle.round_table.specs.Rounds.{fresh};
    ghost use Rattle.round_table.specs.Jobs.{HasMore};

    /// What it makes of a state, from the contents of the table, the number of the pass and the buckets that it claims.
    ghost makes: { List T → ℕ → List ℕ → S → S → Type 0 };

    fn work(&self, table: &RoundTable<T>, pass: &mut Pass<T>, state: &mut S)
        requires fresh { pass.old ≡ fresh table.now pass.old.number }
        ensures pass { HasMore pass.old pass.new }
        ensures makes { makes table.now.contents pass.new.number pass.new.claims state.old state.new };
}

// How many threads work at once: as many as there are processors, but two at least, so that workers can meet.
fn thread_count<R: Threads>(rt: &R) -> usize
    ensures { 0 < result }
{
    match available_parallelism(rt) {
        Ok(count) => count.get().max(2),
        Err(_) => 2,
    }
}

/// Runs workers side by side, each by its pass, which is to be one of the table that has claimed nothing.
pub fn work_side_by_side<T: Drop + Send + Sync, S: Send, J: Job<T, S> + Sync, R: Threads + Sync>(
    rt: &R,
    table: &RoundTable<T>,
    workers: &mut [Worker<T, S>],
    job: &J,
)
    requires { AreFresh table.now workers.old }
    ensures { AreWorked J.makes table.now workers.old workers.new }
{
    for_each_mut(
        rt,
        workers,
        thread_count(rt),
        &|_place: usize, worker: &mut Worker<T, S>|
            requires { worker.old.pass ≡ fresh table.now worker.old.pass.number }
            ensures { IsWorked J.makes table.entry.now worker.old worker.new }
        {
            job.work(table, &mut worker.pass, &mut worker.state);
        },
    );
}

/// A round: the contents are claimed by workers side by side, one for each state. Together with what is left they have
/// all that there was, each bucket once.
///
/// # Errors
/// Want of memory. All is then dropped.
pub fn round<T: Drop + Send + Sync, S: Drop + Send, J: Job<T, S> + Sync, R: Threads + Sync>(
    rt: &R,
    alloc: Global,
    contents: Vec<T>,
    states: Vec<S>,
    job: &J,
) -> Result<(Vec<S>, Vec<Option<T>>), AllocError>
    requires some { 0 < length contents.items }
    requires few { length states.items < 2 ^ 32 }
    ensures { IfOk result (λ r. IsRound J.makes contents.items states.items r.0.items r.1.items) }
{
    let (table, mut workers) = RoundTable::open(alloc, contents, states)?;
    work_side_by_side(rt, &table, workers.as_mut_slice(), job);
    let (states, rest) = table.close(alloc, workers)?;
    Ok((states, rest))
}
