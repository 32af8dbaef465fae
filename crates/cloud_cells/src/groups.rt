//! Groups of cells, to which threads put points side by side.

ghost use Rattle.std.specs.Prelude.{◌≡◌, ◌<◌, ◌++◌, ◌∷◌, [], false, length, IfOk, OnOk};
ghost use Rattle.point_order.specs.Sets.{IsIn};
ghost use Rattle.cloud_cells.specs.Groups.{cells_of_groups, points_of_groups};
ghost use Rattle.cell_slots.specs.Nets.{AreMoved, cells_of_slots};
ghost use Rattle.cell_slots.specs.Parts.{ArePut, HaveRoomFor};
ghost use Rattle.cloud_cells.specs.declared.groups.Group.{Group as GroupOf};
ghost use Rattle.cell_slots.specs.declared.reach.Reach.TheVariants.{Part, Whole};

use cell_net::{Deal, Net};
use cell_slots::{Page, Reach};
use net_digs::{Choice, Desk, Turn, put_points};
use rayon::prelude::*;
use std::alloc::{AllocError, Global};
use std::thread::Threads;

// Some of the cells, the points that wait to be put among them, how much is done at the most, and whether memory was
// wanting.
#[derive(Drop)]
pub(crate) struct Group {
    net: Net,
    waiting: Vec<Turn>,
    desk: Desk,
    most: usize,
    has_failed: bool,
}

impl Group {
    // The group of that number without cells and points. It has the free slots of its blocks of a net.
    fn of(alloc: Global, net: &mut Net, deal: &Deal, number: usize) -> Result<Group, AllocError>
        ensures net { net.new ≡ net.old }
        ensures cells { IfOk result (λ group. group.net ≡ []) }
        ensures points { IfOk result (λ group. group.waiting.items ≡ []) }
    {
        let mut part = Net::of_blocks(alloc, net.blocks())?;
        part.trade_free(net, deal, number);
        Ok(Group {
            net: part,
            waiting: Vec::new(alloc),
            desk: Desk::new(alloc),
            most: deal.most(),
            has_failed: false,
        })
    }

    // A page comes to it.
    fn take_in(&mut self, page: Page) -> Result<(), AllocError>
        requires { length page ≡ 128 }
        ensures cells { OnOk result (self.new.net ≡ self.old.net ++ page) }
        ensures points { OnOk result (self.new.waiting.items ≡ self.old.waiting.items) }
    {
        self.net.add(page)?;
        Ok(())
    }

    // A point comes to those that wait.
    fn let_wait(&mut self, turn: Turn) -> Result<(), AllocError>
        ensures cells { OnOk result (self.new.net ≡ self.old.net) }
        ensures points { OnOk result (self.new.waiting.items ≡ self.old.waiting.items ++ turn ∷ []) }
    {
        self.waiting.push(turn)?;
        Ok(())
    }

    // Puts the points that wait among the cells. Those that are left wait on.
    fn put_waiting(&mut self, alloc: Global) -> Result<(), AllocError>
        requires { HaveRoomFor Part self.old.waiting.items (cells_of_slots self.old.net) }
        ensures { OnOk result (ArePut self.old.waiting.items self.new.waiting.items
            (cells_of_slots self.old.net) (cells_of_slots self.new.net)) }
    {
        let left = put_points(
            alloc,
            &mut self.net,
            &mut self.desk,
            &self.waiting,
            Choice::Before(self.most),
            Reach::Part,
        )?;
        self.waiting = left;
        Ok(())
    }

    // The same, where want of memory is noted.
    fn work(&mut self, alloc: Global)
        requires { HaveRoomFor Part self.old.waiting.items (cells_of_slots self.old.net) }
        ensures { self.new.has_failed ≡ false → ArePut self.old.waiting.items self.new.waiting.items
            (cells_of_slots self.old.net) (cells_of_slots self.new.net) }
    {
        match self.put_waiting(alloc) {
            Ok(()) => {}
            Err(_) => {
                self.has_failed = true;
            }
        }
    }
}

// Groups without cells and points, at least one.
fn empty_groups(alloc: Global, net: &mut Net, deal: &Deal) -> Result<Vec<Group>, AllocError>
    ensures net { net.new ≡ net.old }
    ensures some { IfOk result (λ groups. 0 < length groups.items) }
    ensures cells { IfOk result (λ groups. cells_of_groups groups.items ≡ []) }
    ensures points { IfOk result (λ groups. points_of_groups groups.items ≡ []) }
{
    let last = deal.last();
    let mut groups = Vec::new(alloc);
    'fill: while groups.len() <= last {
        let group = Group::of(alloc, net, deal, groups.len())?;
        groups.push(group)?;
    }
    Ok(groups)
}

// The group of a number, and the first where there are not so many.
fn number_in(groups: &[Group], g: usize) -> usize
    requires { 0 < length groups.now }
    ensures { result < length groups.now }
{
    if g < groups.len() { g } else { 0 }
}

// A page comes to a group.
fn deal_page(groups: &mut Vec<Group>, g: usize, page: Page) -> Result<(), AllocError>
    requires group { g < length groups.old.items }
    requires page { length page ≡ 128 }
    ensures len { OnOk result (length groups.new.items ≡ length groups.old.items) }
    ensures cells { OnOk result (AreMoved (cells_of_groups groups.old.items ++ cells_of_slots page)
        (cells_of_groups groups.new.items)) }
    ensures points { OnOk result (points_of_groups groups.new.items ≡ points_of_groups groups.old.items) }
{
    groups[g].take_in(page)?;
    Ok(())
}

// A point waits for a group.
fn deal_point(groups: &mut Vec<Group>, g: usize, turn: Turn) -> Result<(), AllocError>
    requires { g < length groups.old.items }
    ensures len { OnOk result (length groups.new.items ≡ length groups.old.items) }
    ensures cells { OnOk result (cells_of_groups groups.new.items ≡ cells_of_groups groups.old.items) }
    ensures points { OnOk result (AreMoved (points_of_groups groups.old.items ++ turn ∷ [])
        (points_of_groups groups.new.items)) }
{
    groups[g].let_wait(turn)?;
    Ok(())
}

// Deals the pages of a net to groups.
fn deal_cells(
    alloc: Global,
    net: &mut Net,
    groups: &mut Vec<Group>,
    deal: &Deal,
) -> Result<(), AllocError>
    requires { 0 < length groups.old.items }
    ensures net { OnOk result (net.new ≡ []) }
    ensures len { OnOk result (length groups.new.items ≡ length groups.old.items) }
    ensures cells { OnOk result (AreMoved (cells_of_groups groups.old.items ++ cells_of_slots net.old)
        (cells_of_groups groups.new.items)) }
    ensures points { OnOk result (points_of_groups groups.new.items ≡ points_of_groups groups.old.items) }
{
    while let Some(page) = net.remove(alloc)? {
        let g = number_in(groups, deal.group_of(net.block_of(&page)));
        deal_page(groups, g, page)?;
    }
    Ok(())
}

// Deals points to groups.
fn deal_points(
    waiting: &mut Vec<Turn>,
    groups: &mut Vec<Group>,
    deal: &Deal,
) -> Result<(), AllocError>
    requires { 0 < length groups.old.items }
    ensures waiting { OnOk result (waiting.new.items ≡ []) }
    ensures cells { OnOk result (cells_of_groups groups.new.items ≡ cells_of_groups groups.old.items) }
    ensures points { OnOk result (AreMoved (points_of_groups groups.old.items ++ waiting.old.items)
        (points_of_groups groups.new.items)) }
{
    while let Some(turn) = waiting.pop() {
        let g = number_in(groups, deal.group_of(turn.block()));
        deal_point(groups, g, turn)?;
    }
    Ok(())
}

// Whether no group has failed.
fn none_failed(groups: &[Group]) -> Result<(), AllocError>
    ensures { OnOk result ((group : GroupOf) → IsIn group groups.now → group.has_failed ≡ false) }
{
    for group in groups {
        if group.has_failed {
            return Err(AllocError);
        }
    }
    Ok(())
}

// Each group puts its points in, in a thread of its own.
fn work_all<R: Threads + Sync>(
    rt: &R,
    alloc: Global,
    groups: &mut [Group],
) -> Result<(), AllocError>
    requires { HaveRoomFor Part (points_of_groups groups.old) (cells_of_groups groups.old) }
    ensures { OnOk result (ArePut (points_of_groups groups.old) (points_of_groups groups.new)
        (cells_of_groups groups.old) (cells_of_groups groups.new)) }
{
    par_for_each_mut(
        rt,
        groups,
        |_number: usize, group: &mut Group|
            requires { HaveRoomFor Part group.old.waiting.items (cells_of_slots group.old.net) }
            ensures { group.new.has_failed ≡ false → ArePut group.old.waiting.items group.new.waiting.items
                (cells_of_slots group.old.net) (cells_of_slots group.new.net) }
        {
            group.work(alloc);
        },
    );
    none_failed(groups)?;
    Ok(())
}

// The pages of a part come to the net.
pub(crate) fn gather_cells(alloc: Global, net: &mut Net, part: &mut Net) -> Result<(), AllocError>
    ensures { OnOk result (AreMoved (cells_of_slots net.old ++ cells_of_slots part.old) (cells_of_slots net.new)) }
{
    while let Some(page) = part.remove(alloc)? {
        net.add(page)?;
    }
    Ok(())
}

// The points that are left come to those that wait.
fn gather_points(waiting: &mut Vec<Turn>, left: &mut Vec<Turn>) -> Result<(), AllocError>
    ensures { OnOk result (AreMoved (waiting.old.items ++ left.old.items) waiting.new.items) }
{
    while let Some(turn) = left.pop() {
        waiting.push(turn)?;
    }
    Ok(())
}

// The cells of a group come back to the net, and its points wait on.
fn gather_one(
    alloc: Global,
    net: &mut Net,
    waiting: &mut Vec<Turn>,
    group: &mut Group,
    deal: &Deal,
    number: usize,
) -> Result<(), AllocError>
    ensures cells { OnOk result (AreMoved (cells_of_slots net.old ++ cells_of_slots group.old.net)
        (cells_of_slots net.new)) }
    ensures points { OnOk result (AreMoved (waiting.old.items ++ group.old.waiting.items) waiting.new.items) }
{
    net.trade_free(&mut group.net, deal, number);
    gather_cells(alloc, net, &mut group.net)?;
    gather_points(waiting, &mut group.waiting)?;
    Ok(())
}

// The cells and the points of all groups.
fn gather(
    alloc: Global,
    net: &mut Net,
    waiting: &mut Vec<Turn>,
    groups: &mut Vec<Group>,
    deal: &Deal,
) -> Result<(), AllocError>
    ensures cells { OnOk result (AreMoved (cells_of_slots net.old ++ cells_of_groups groups.old.items)
        (cells_of_slots net.new)) }
    ensures points { OnOk result (AreMoved (waiting.old.items ++ points_of_groups groups.old.items)
        waiting.new.items) }
{
    while let Some(mut group) = groups.pop() {
        gather_one(alloc, net, waiting, &mut group, deal, groups.len())?;
    }
    Ok(())
}

// The groups of the cells of a net and of the points that wait.
fn deal_all(
    alloc: Global,
    net: &mut Net,
    waiting: &mut Vec<Turn>,
    deal: &Deal,
) -> Result<Vec<Group>, AllocError>
    ensures net { OnOk result (net.new ≡ []) }
    ensures waiting { OnOk result (waiting.new.items ≡ []) }
    ensures cells { IfOk result (λ groups. AreMoved (cells_of_slots net.old) (cells_of_groups groups.items)) }
    ensures points { IfOk result (λ groups. AreMoved waiting.old.items (points_of_groups groups.items)) }
{
    let mut groups = empty_groups(alloc, net, deal)?;
    deal_cells(alloc, net, &mut groups, deal)?;
    deal_points(waiting, &mut groups, deal)?;
    Ok(groups)
}

// Points are put into the net by several threads. Those that are left wait on.
pub(crate) fn pass<R: Threads + Sync>(
    rt: &R,
    alloc: Global,
    net: &mut Net,
    waiting: &mut Vec<Turn>,
    deal: &Deal,
) -> Result<(), AllocError>
    requires { HaveRoomFor Whole waiting.old.items (cells_of_slots net.old) }
    ensures { OnOk result (ArePut waiting.old.items waiting.new.items (cells_of_slots net.old)
        (cells_of_slots net.new)) }
{
    let mut groups = deal_all(alloc, net, waiting, deal)?;
    work_all(rt, alloc, &mut groups)?;
    gather(alloc, net, waiting, &mut groups, deal)?;
    Ok(())
}
