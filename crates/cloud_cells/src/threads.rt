//! The complex of points by several threads.

ghost use Rattle.std.specs.Prelude.{◌≡◌, ◌++◌, ◌∷◌, [], true, IfOk, OnOk};
ghost use Rattle.point_order.specs.Complex.{complex};
ghost use Rattle.point_order.specs.Sets.{IsAscending};
ghost use Rattle.point_order.specs.Solid.{is_solid};
ghost use Rattle.cell_slots.specs.Clouds.{AreCellsOf};
ghost use Rattle.cell_slots.specs.Nets.{cells_of_slots};
ghost use Rattle.cell_slots.specs.Parts.{ArePut, HaveRoomFor};
ghost use Rattle.cell_slots.specs.declared.reach.Reach.TheVariants.{Whole};

use crate::groups::{gather_cells, pass};
use cell_net::{Deal, Net, Tree};
use cell_slots::Reach;
use net_digs::{
    Choice, Desk, Turn, cells_of_four, complex_of_points, four_of, put_points, ranked_by_threads,
    turns_of,
};
use point_order::{Cell, Point, cells_in_order};
use std::alloc::{AllocError, Global};
use std::thread::Threads;

// From so many points on threads pay, and for so many there is one at the most.
const FEWEST: usize = 100_000;

const SHARE: usize = 12_500;

// So many slots a net has before threads are begun.
const LEAST: usize = 6_000;

// How many passes a level has, and the last of them, and with how few open points there is none.
const PASSES: usize = 6;

const LAST: usize = 18;

const FEW: usize = 64;

// What a point costs: cells found, sides, and the try.
const POINT: usize = 57;

// How many threads there are, where the levels end in the list of points, how many of them came, how many levels did,
// the number of the next pass, and that of it in its level.
#[derive(Drop)]
struct Pace {
    threads: usize,
    ends: Vec<usize>,
    came: usize,
    level: usize,
    turn: usize,
    pass: usize,
}

impl Pace {
    // So many threads, and the points in order.
    fn of(alloc: Global, turns: &[Turn], threads: usize) -> Result<Pace, AllocError> {
        let mut ends = Vec::new(alloc);
        for i in 1..turns.len() {
            if turns[i - 1].level() != turns[i].level() {
                ends.push(i)?;
            }
        }
        ends.push(turns.len())?;
        Ok(Pace {
            threads,
            ends,
            came: 0,
            level: 0,
            turn: 0,
            pass: 0,
        })
    }

    // Whether it is time for passes, where one point more came: it is the last of its level.
    fn is_time(&mut self) -> bool {
        self.came = self.came.saturating_add(1);
        if self.level >= self.ends.len() || self.came < self.ends[self.level] {
            return false;
        }
        self.level = self.level.saturating_add(1);
        self.pass = 0;
        true
    }

    // Whether the level that came is the last.
    fn is_last(&self) -> bool {
        self.level >= self.ends.len()
    }

    // How many passes a level has.
    fn passes(&self) -> usize {
        if self.is_last() { LAST } else { PASSES }
    }

    // How many points there are in all.
    fn all(&self) -> usize {
        if self.ends.len() > 0 {
            self.ends[self.ends.len() - 1]
        } else {
            0
        }
    }

    // Whether so few points are open that the next level may come.
    fn is_enough(&self, open: usize) -> bool {
        let to_come = self.all().saturating_sub(self.came);
        open < FEW || (!self.is_last() && open.saturating_mul(50) < open.saturating_add(to_come))
    }

    // How much a thread does in the next pass, so that all end together.
    fn share(&self, open: usize) -> usize {
        if self.is_last() && self.pass >= PASSES {
            return usize::MAX;
        }
        let percent = self.pass.saturating_mul(10).saturating_add(55).min(95);
        let all = open.saturating_mul(percent).saturating_mul(POINT) / 100;
        (all / self.threads.max(1)).saturating_add(2_000)
    }

    // A pass is over.
    fn go_on(&mut self) {
        self.turn = self.turn.saturating_add(1);
        self.pass = self.pass.saturating_add(1);
    }
}

// How many points wait for each block, weighed.
fn weights_of(alloc: Global, waiting: &[Turn], blocks: usize) -> Result<Vec<usize>, AllocError> {
    let mut weights = Vec::new(alloc);
    for _ in 0..blocks {
        weights.push(1usize)?;
    }
    for turn in waiting {
        let block = turn.block();
        if block < weights.len() {
            weights[block] = weights[block].saturating_add(8);
        }
    }
    Ok(weights)
}

// Puts some of the points that wait into the net by one thread. Those that are left wait on.
fn put_some(
    alloc: Global,
    net: &mut Net,
    desk: &mut Desk,
    waiting: &mut Vec<Turn>,
    choice: Choice,
) -> Result<(), AllocError>
    requires { HaveRoomFor Whole waiting.old.items (cells_of_slots net.old) }
    ensures { OnOk result (ArePut waiting.old.items waiting.new.items (cells_of_slots net.old)
        (cells_of_slots net.new)) }
{
    let left = put_points(alloc, net, desk, waiting, choice, Reach::Whole)?;
    *waiting = left;
    Ok(())
}

// A pass over the points that wait, and then some that were given up go in by one thread.
fn pass_on<R: Threads + Sync>(
    rt: &R,
    alloc: Global,
    net: &mut Net,
    desk: &mut Desk,
    waiting: &mut Vec<Turn>,
    pace: &mut Pace,
    tree: &Tree,
) -> Result<(), AllocError>
    requires { HaveRoomFor Whole waiting.old.items (cells_of_slots net.old) }
    ensures { OnOk result (ArePut waiting.old.items waiting.new.items (cells_of_slots net.old)
        (cells_of_slots net.new)) }
{
    let weights = weights_of(alloc, waiting, net.blocks())?;
    let most = pace.share(waiting.len());
    let deal = Deal::of(alloc, tree, &weights, pace.threads, pace.turn, most)?;
    pace.go_on();
    pass(rt, alloc, net, waiting, &deal)?;
    put_some(alloc, net, desk, waiting, Choice::Sown)?;
    Ok(())
}

// The same, where it is worth it.
fn pass_if<R: Threads + Sync>(
    rt: &R,
    alloc: Global,
    net: &mut Net,
    desk: &mut Desk,
    waiting: &mut Vec<Turn>,
    pace: &mut Pace,
    tree: &Tree,
) -> Result<(), AllocError>
    requires { HaveRoomFor Whole waiting.old.items (cells_of_slots net.old) }
    ensures { OnOk result (ArePut waiting.old.items waiting.new.items (cells_of_slots net.old)
        (cells_of_slots net.new)) }
{
    if pace.is_enough(waiting.len()) {
        return Ok(());
    }
    pass_on(rt, alloc, net, desk, waiting, pace, tree)
}

// Puts the points that wait into the net in passes. Those that are left wait on.
fn put_waiting<R: Threads + Sync>(
    rt: &R,
    alloc: Global,
    net: &mut Net,
    desk: &mut Desk,
    waiting: &mut Vec<Turn>,
    pace: &mut Pace,
    tree: &Tree,
) -> Result<(), AllocError>
    requires { HaveRoomFor Whole waiting.old.items (cells_of_slots net.old) }
    ensures { OnOk result (ArePut waiting.old.items waiting.new.items (cells_of_slots net.old)
        (cells_of_slots net.new)) }
{
    if net.len() < LEAST || pace.threads < 2 {
        return put_some(alloc, net, desk, waiting, Choice::All);
    }
    for _ in 0..pace.passes() {
        pass_if(rt, alloc, net, desk, waiting, pace, tree)?;
    }
    Ok(())
}

// One point more waits. Where it is time, those that wait are put in.
fn wait<R: Threads + Sync>(
    rt: &R,
    alloc: Global,
    net: &mut Net,
    desk: &mut Desk,
    waiting: &mut Vec<Turn>,
    turn: &Turn,
    pace: &mut Pace,
    tree: &Tree,
) -> Result<(), AllocError>
    requires { HaveRoomFor Whole (waiting.old.items ++ turn.now ∷ []) (cells_of_slots net.old) }
    ensures { OnOk result (ArePut (waiting.old.items ++ turn.now ∷ []) waiting.new.items (cells_of_slots net.old)
        (cells_of_slots net.new)) }
{
    waiting.push(turn.copied())?;
    let is_time = pace.is_time();
    if !is_time {
        return Ok(());
    }
    put_waiting(rt, alloc, net, desk, waiting, pace, tree)
}

// Puts points into the net, by several threads.
fn put_by_threads<R: Threads + Sync>(
    rt: &R,
    alloc: Global,
    net: &mut Net,
    turns: &[Turn],
    threads: usize,
    tree: &Tree,
) -> Result<(), AllocError>
    requires { HaveRoomFor Whole turns.now (cells_of_slots net.old) }
    ensures { OnOk result (ArePut turns.now [] (cells_of_slots net.old) (cells_of_slots net.new)) }
{
    let mut desk = Desk::new(alloc);
    let mut waiting = Vec::new(alloc);
    let mut pace = Pace::of(alloc, turns, threads)?;
    for turn in turns {
        wait(
            rt,
            alloc,
            net,
            &mut desk,
            &mut waiting,
            turn,
            &mut pace,
            tree,
        )?;
    }
    put_points(alloc, net, &mut desk, &waiting, Choice::All, Reach::Whole)?;
    Ok(())
}

// The net of the complex of the points, which are ascending and solid.
fn net_by_threads<R: Threads + Sync>(
    rt: &R,
    alloc: Global,
    points: &[Point],
    threads: usize,
) -> Result<Net, AllocError>
    requires ascending { IsAscending points.now }
    requires solid { is_solid points.now ≡ true }
    ensures { IfOk result (λ net. AreCellsOf points.now (cells_of_slots net)) }
{
    let (a, b, c, d) = four_of(points);
    let cells = cells_of_four(alloc, a, b, c, d)?;
    let mut four = Net::of_cells(alloc, &cells)?;
    let tree = Tree::of(alloc, points)?;
    let mut net = Net::of_blocks(alloc, tree.len())?;
    gather_cells(alloc, &mut net, &mut four)?;
    let turns = turns_of(alloc, points, a, b, c, d, &tree)?;
    put_by_threads(rt, alloc, &mut net, &turns, threads, &tree)?;
    Ok(net)
}

/// The cells of the complex of the points, which are ascending and solid, as `complex_of_points` gives them, made by so
/// many threads, where there are points enough that it pays, and else by one.
///
/// # Errors
/// Want of memory.
pub fn complex_by_threads<R: Threads + Sync>(
    rt: &R,
    alloc: Global,
    points: &[Point],
    threads: usize,
) -> Result<Vec<Cell>, AllocError>
    requires ascending { IsAscending points.now }
    requires solid { is_solid points.now ≡ true }
    ensures { IfOk result (λ cells. cells.items ≡ complex points.now) }
{
    if threads < 2 || points.len() < FEWEST {
        return complex_of_points(alloc, points);
    }
    let net = net_by_threads(rt, alloc, points, threads.min(points.len() / SHARE))?;
    let cells = ranked_by_threads(rt, alloc, net)?;
    Ok(cells_in_order(cells))
}
