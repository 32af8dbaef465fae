//! Exchanges that are made and turned back, without memory.

ghost use Rattle.std.specs.Prelude.{◌≡◌, length, ◌*◌, Some};
ghost use Rattle.std.specs.Option.{option_map};
ghost use Rattle.cell_stars.specs.Plans.{Allows, AreBelow, or_else, set_all, after_plan};
ghost use Rattle.cell_stars.specs.Turns.{IsPart, IsTurn, WasPart, WasTurned, stood, replaced};
ghost use Rattle.cell_stars.specs.Places.{at_slot};

use crate::cells::Cells;
use crate::joins::Joint;
use crate::plan::{PlacesPlan, Plan};
use crate::slots::Slot;
use std::mem::swap;

// Exchanges the list for the other, if there is one.
fn turn_list<T: Drop>(list: &mut Vec<T>, other: &mut Option<Vec<T>>)
    ensures list { list.new.items ≡ or_else (option_map (λ v. v.items) other.old) list.old.items }
    ensures other { option_map (λ v. v.items) other.new
        ≡ replaced (option_map (λ v. v.items) other.old) list.old.items }
{
    if let Some(other) = other {
        swap(list, other);
    }
}

// Exchanges elements for those at their places, in turn.
fn turn_all<T: Drop>(list: &mut [T], changes: &mut [(u32, T)])
    requires { AreBelow (length list.old) changes.old }
    ensures list { list.new ≡ set_all changes.old list.old }
    ensures changes { changes.new ≡ stood changes.old list.old }
{
    for (i, x) in changes.iter_mut() {
        swap(&mut list[*i as usize], x);
    }
}

// Exchanges them back, the last one first.
fn turn_back_all<T: Drop>(list: &mut [T], changes: &mut [(u32, T)])
    requires { AreBelow (length list.old) changes.old }
    ensures list { set_all changes.new list.new ≡ list.old }
    ensures changes { stood changes.new list.new ≡ changes.old }
{
    for k in (0..changes.len()).rev() {
        let (i, x) = &mut changes[k];
        swap(&mut list[*i as usize], x);
    }
}

// Makes changes of a list, or of a longer one that comes in its place, and keeps what stood there.
fn turn_part<T: Drop>(list: &mut Vec<T>, grown: &mut Option<Vec<T>>, changes: &mut Vec<(u32, T)>)
    requires { AreBelow (length (or_else (option_map (λ v. v.items) grown.old) list.old.items)) changes.old.items }
    ensures { IsPart (option_map (λ v. v.items) grown.old) changes.old.items list.old.items
        (option_map (λ v. v.items) grown.new) changes.new.items list.new.items }
{
    turn_list(list, grown);
    turn_all(list, changes);
}

// Takes them back.
fn turn_back_part<T: Drop>(
    list: &mut Vec<T>,
    grown: &mut Option<Vec<T>>,
    changes: &mut Vec<(u32, T)>,
)
    requires { WasPart (option_map (λ v. v.items) grown.old) changes.old.items list.old.items }
    ensures { IsPart (option_map (λ v. v.items) grown.new) changes.new.items list.new.items
        (option_map (λ v. v.items) grown.old) changes.old.items list.old.items }
{
    turn_back_all(list, changes);
    turn_list(list, grown);
}

// Exchanges the place across a facet.
fn turn_joint(slots: &mut [Slot], joint: &mut Joint)
    ensures { slots.new ≡ slots.old }
{
    let at = joint.place as usize;
    if at < slots.len() {
        slots[at].turn_side(joint.side, &mut joint.other);
    }
}

// Exchanges the places across some facets.
fn turn_rim(slots: &mut [Slot], rim: &mut [Joint])
    ensures { slots.new ≡ slots.old }
{
    for joint in rim.iter_mut() {
        turn_joint(slots, joint);
    }
}

// Exchanges them back, the last one first.
fn turn_back_rim(slots: &mut [Slot], rim: &mut [Joint])
    ensures { slots.new ≡ slots.old }
{
    for k in (0..rim.len()).rev() {
        turn_joint(slots, &mut rim[k]);
    }
}

// Makes changes of places as planned, and keeps what stood there.
fn turn_slots(slots: &mut Vec<Slot>, plan: &mut PlacesPlan)
    requires { AreBelow (length (or_else (option_map (λ v. v.items) plan.old.grown) slots.old.items))
        plan.old.slots.items }
    ensures { IsPart (option_map (λ v. v.items) plan.old.grown) plan.old.slots.items slots.old.items
        (option_map (λ v. v.items) plan.new.grown) plan.new.slots.items slots.new.items }
{
    turn_part(slots, &mut plan.grown, &mut plan.slots);
    turn_rim(slots, &mut plan.rim);
}

// Takes them back.
fn turn_back_slots(slots: &mut Vec<Slot>, plan: &mut PlacesPlan)
    requires { WasPart (option_map (λ v. v.items) plan.old.grown) plan.old.slots.items slots.old.items }
    ensures { IsPart (option_map (λ v. v.items) plan.new.grown) plan.new.slots.items slots.new.items
        (option_map (λ v. v.items) plan.old.grown) plan.old.slots.items slots.old.items }
{
    turn_back_rim(slots, &mut plan.rim);
    turn_back_part(slots, &mut plan.grown, &mut plan.slots);
}

impl Cells {
    /// Carries a plan out, without memory.
    pub fn carry_out(&mut self, plan: Plan)
        requires { Allows plan self.old }
        ensures { self.new ≡ after_plan plan self.old }
    {
        let mut plan = plan;
        self.turn(&mut plan);
    }

    /// Carries a plan out, without memory. The plan has then what stood in the places that it changes.
    pub fn turn(&mut self, plan: &mut Plan)
        requires { Allows plan.old self.old }
        ensures { IsTurn plan.old self.old plan.new self.new }
    {
        let Plan { places, stars } = plan;
        turn_slots(&mut self.slots, places);
        turn_part(&mut self.stars, &mut stars.more, &mut stars.stars);
        turn_part(&mut self.keys, &mut stars.keys.more, &mut stars.keys.parts);
        self.turn_numbers(plan);
    }

    /// Takes back what a plan made, without memory. The plan and the bucket are then as before.
    pub fn turn_back(&mut self, plan: &mut Plan)
        requires { WasTurned plan.old self.old }
        ensures { IsTurn plan.new self.new plan.old self.old }
    {
        let Plan { places, stars } = plan;
        turn_back_slots(&mut self.slots, places);
        turn_back_part(&mut self.stars, &mut stars.more, &mut stars.stars);
        turn_back_part(&mut self.keys, &mut stars.keys.more, &mut stars.keys.parts);
        self.turn_numbers(plan);
    }

    // Exchanges the numbers of places and stars that are likely to be free for those of the plan.
    fn turn_numbers(&mut self, plan: &mut Plan)
        ensures cells { self.new ≡ self.old }
        ensures plan { plan.new ≡ plan.old }
    {
        swap(&mut self.free, &mut plan.places.free);
        swap(&mut self.spare, &mut plan.stars.spare);
    }
}
