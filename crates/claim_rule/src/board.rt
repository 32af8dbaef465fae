//! Boards.

ghost use Rattle.std.specs.Prelude.{◌≡◌, IsTrue, ℕ, ◌*◌, ◌+◌, ◌-◌, ◌^◌, ◌<◌, ◌≤◌, ◌∷◌, ◌↔◌, true, None, Some, length};
ghost use Rattle.std.specs.Prelude.{replicate, IfOk, List, OnErr, MatchOption, IsSome, IsSomeAnd, slice_index_or};
ghost use Rattle.edit_history.specs.declared.history.Entry.{Entry};
ghost use Rattle.bucket_grid.specs.Grids.{is_grid_size};
ghost use Rattle.claim_rule.specs.Boards.{word_of};
ghost use Rattle.claim_rule.specs.Good.{IsGood, Good};
ghost use Rattle.claim_rule.specs.Events.{Next, is_commit};
ghost use Rattle.claim_rule.specs.declared.event.Event.TheVariants.{Claim, Commit, Release, Look, Split, Join};
ghost use Rattle.claim_rule.specs.Opening.{opening_board};

use crate::edits::{edit_in, holds_nothing, names};
use crate::event::{Event, Played};
use bucket_grid::Grid;
use cell_store::{Hold, Mesh};
use edit_history::Edit;
use std::alloc::{AllocError, Global};
use std::marker::Model;
use std::snapshot::Snapshot;

// A live pass, without what it holds.
#[derive(Clone, Copy)]
struct Seat {
    first: u32,
    parts: u32,
    left: u64,
    seen: u64,
    since: u64,
}

/// A table of buckets with words and passes, as a machine.
///
/// Contracts see it as a plain board. All buckets lie in one hold, and their words tell whose they are.
#[derive(Drop)]
pub struct Board {
    hold: Hold,
    parts: u32,
    most: u64,
    begun: Snapshot<Mesh>,
    ticket: u64,
    words: Vec<u64>,
    seats: Vec<Option<Seat>>,
}

impl Model for Board {
    ghost use Rattle.claim_rule.specs.Boards.{BoardState};

    ghost Value = { BoardState };

    ghost use Rattle.claim_rule.specs.Good.{Good};
    ghost use Rattle.claim_rule.specs.Kept.{board_of, kept_of};

    ghost view = { λ s. board_of (kept_of s) };

    ghost invariant = { λ s. Good (board_of (kept_of s)) };
}

// The pass with the number, if it is live.
fn seat_at(seats: &[Option<Seat>], n: u32) -> Option<Seat>
    ensures { result ≡ slice_index_or seats.now n None }
{
    match seats.get(n as usize) {
        Some(seat) => *seat,
        None => None,
    }
}

// Whether there is a pass with the number.
fn is_live(seats: &[Option<Seat>], n: u32) -> bool
    ensures { IsTrue result ↔ IsSome (slice_index_or seats.now n None) }
{
    seat_at(seats, n).is_some()
}

// The pass with the number, if it is live and may still make an edit.
fn spender(seats: &[Option<Seat>], n: u32) -> Option<Seat>
    ensures { MatchOption result (¬ (IsSomeAnd (slice_index_or seats.now n None) (λ x. 0 < x.left)))
        (λ x. (slice_index_or seats.now n None ≡ Some x) × (0 < x.left)) }
{
    match seat_at(seats, n) {
        Some(seat) if seat.left > 0 => Some(seat),
        _ => None,
    }
}

// The words of so many buckets, all at home.
fn home_words(alloc: Global, count: u32) -> Result<Vec<u64>, AllocError>
    ensures { IfOk result (λ words. words.items ≡ replicate count 0) }
{
    let mut words = Vec::with_capacity(alloc, count as usize)?;
    for _ in 0..count {
        words.push(0)?;
    }
    Ok(words)
}

// The first pass, and places for the passes of all other parts.
fn first_seats(alloc: Global, seat: Seat) -> Result<Vec<Option<Seat>>, AllocError>
    requires { 0 < seat.parts }
    ensures { IfOk result (λ seats. seats.items ≡ Some seat ∷ replicate (seat.parts - 1) None) }
{
    let mut seats = Vec::with_capacity(alloc, seat.parts as usize)?;
    seats.push(Some(seat))?;
    for _ in 0..seat.parts - 1 {
        seats.push(None)?;
    }
    Ok(seats)
}

impl Board {
    /// The board of a mesh, with so many parts, which one pass owns; that pass may make so many edits.
    ///
    /// There are to be 1 to 64 parts, and at most 2^32 entries with all that may come.
    ///
    /// # Errors
    /// Want of memory. The mesh is then dropped.
    pub fn new(alloc: Global, mesh: Mesh, parts: u32, allowance: u64) -> Result<Board, AllocError>
        requires parts { (0 < parts) × (parts ≤ 64) }
        requires room { length mesh.history + allowance ≤ 2 ^ 32 }
        ensures board { IfOk result (λ s. s ≡ opening_board mesh.grid parts allowance mesh.history) }
        ensures good { IfOk result Good }
    {
        let ticket = mesh.count();
        let seat = Seat {
            first: 0,
            parts,
            left: allowance,
            seen: ticket,
            since: ticket,
        };
        let words = home_words(alloc, mesh.grid().count())?;
        let seats = first_seats(alloc, seat)?;
        let begun = Snapshot::of(&mesh);
        let hold = mesh.into_hold();
        // Nothing is read: the call promises that each bucket stands at its place.
        let _ = hold.grid();
        Ok(Board {
            hold,
            parts,
            most: ticket + allowance,
            begun,
            ticket,
            words,
            seats,
        })
    }

    /// How many entries there are.
    pub fn ticket(&self) -> u64
        ensures { result ≡ self.now.ticket }
    {
        self.ticket
    }

    /// The grid whose buckets these are.
    pub fn grid(&self) -> Grid
        ensures grid { result ≡ self.now.grid }
        ensures size { is_grid_size self.now.grid ≡ true }
    {
        self.hold.grid()
    }

    /// The word of the bucket with the number, which is to be below the grid's count: 0 where the bucket is at home,
    /// and else the number of the pass that holds it plus 1.
    pub fn word(&self, b: u32) -> u64
        requires { b < self.now.grid * self.now.grid * self.now.grid }
        ensures { result ≡ word_of self.now b }
    {
        self.words[b as usize]
    }

    // A claim.
    fn claim(&mut self, n: u32, b: u32) -> Played
        ensures good { Good self.new }
        ensures next { (h : List Entry) → IsGood self.old h → Next h self.old (Claim n b) result self.new }
    {
        if !is_live(&self.seats, n) || b as usize >= self.words.len() {
            return Played::Short;
        }
        let word = self.words[b as usize];
        if word == u64::from(n) + 1 {
            return Played::Short;
        }
        if word != 0 {
            return Played::Taken { word };
        }
        self.words[b as usize] = u64::from(n) + 1;
        Played::Done
    }

    // A release.
    fn release(&mut self, n: u32, b: u32) -> Played
        ensures good { Good self.new }
        ensures next { (h : List Entry) → IsGood self.old h → Next h self.old (Release n b) result self.new }
    {
        if !is_live(&self.seats, n) || !names(&self.words, b, n) {
            return Played::Short;
        }
        self.words[b as usize] = 0;
        Played::Done
    }

    // A look.
    fn look(&mut self, n: u32) -> Played
        ensures good { Good self.new }
        ensures next { (h : List Entry) → IsGood self.old h → Next h self.old (Look n) result self.new }
    {
        match seat_at(&self.seats, n) {
            Some(seat) => {
                self.seats[n as usize] = Some(Seat {
                    seen: self.ticket,
                    ..seat
                });
                Played::Done
            }
            None => Played::Short,
        }
    }

    // A split.
    fn split(&mut self, n: u32, parts: u32, left: u64) -> Played
        ensures good { Good self.new }
        ensures next { (h : List Entry) → IsGood self.old h → Next h self.old (Split n parts left) result self.new }
    {
        let Some(seat) = seat_at(&self.seats, n) else {
            return Played::Short;
        };
        if parts == 0 || parts >= seat.parts || left > seat.left || !holds_nothing(&self.words, n) {
            return Played::Short;
        }
        let kept = seat.parts - parts;
        let first = seat.first + kept;
        self.seats[n as usize] = Some(Seat {
            parts: kept,
            left: seat.left - left,
            seen: self.ticket,
            ..seat
        });
        self.seats[first as usize] = Some(Seat {
            first,
            parts,
            left,
            seen: self.ticket,
            since: self.ticket,
        });
        Played::Done
    }

    // A join.
    fn join(&mut self, n: u32, m: u32) -> Played
        ensures good { Good self.new }
        ensures next { (h : List Entry) → IsGood self.old h → Next h self.old (Join n m) result self.new }
    {
        let (Some(seat), Some(other)) = (seat_at(&self.seats, n), seat_at(&self.seats, m)) else {
            return Played::Short;
        };
        if u64::from(m) != u64::from(seat.first) + u64::from(seat.parts)
            || !holds_nothing(&self.words, n)
            || !holds_nothing(&self.words, m)
        {
            return Played::Short;
        }
        self.seats[m as usize] = None;
        self.seats[n as usize] = Some(Seat {
            parts: seat.parts + other.parts,
            left: seat.left + other.left,
            seen: seat.seen.max(other.seen),
            ..seat
        });
        Played::Done
    }

    // A commit.
    fn commit(&mut self, alloc: Global, n: u32, tag: u32, edit: Edit) -> Result<Played, AllocError>
        ensures good { Good self.new }
        ensures next { IfOk result (λ answer. (h : List Entry) → IsGood self.old h →
            Next h self.old (Commit n tag edit) answer self.new) }
        ensures refused { OnErr result (self.new ≡ self.old) }
    {
        let Some(seat) = spender(&self.seats, n) else {
            return Ok(Played::Short);
        };
        // Nothing is read: the call promises that the hold has a place for each bucket of the grid.
        let _ = self.hold.grid();
        if !edit_in(
            alloc,
            &mut self.hold,
            &self.words,
            self.ticket,
            n,
            tag,
            edit,
        )? {
            return Ok(Played::Short);
        }
        self.ticket += 1;
        self.seats[n as usize] = Some(Seat {
            left: seat.left - 1,
            seen: self.ticket,
            ..seat
        });
        Ok(Played::Done)
    }

    // An event that is no commit. It takes no memory.
    fn step(&mut self, event: &Event) -> Played
        requires { is_commit event.now → ⊥ }
        ensures good { Good self.new }
        ensures next { (h : List Entry) → IsGood self.old h → Next h self.old event.now result self.new }
    {
        match *event {
            Event::Claim(n, b) => self.claim(n, b),
            Event::Release(n, b) => self.release(n, b),
            Event::Look(n) => self.look(n),
            Event::Split(n, parts, left) => self.split(n, parts, left),
            Event::Join(n, m) => self.join(n, m),
            Event::Commit(..) => unreachable!(),
        }
    }

    /// Makes an event, and answers whether it was done.
    ///
    /// # Errors
    /// Want of memory, which a commit alone can meet. The board is then as before.
    pub fn play(&mut self, alloc: Global, event: &Event) -> Result<Played, AllocError>
        ensures good { Good self.new }
        ensures next { IfOk result (λ answer. (h : List Entry) → IsGood self.old h →
            Next h self.old event.now answer self.new) }
        ensures refused { OnErr result (self.new ≡ self.old) }
        ensures only_commits { OnErr result (is_commit event.now) }
    {
        match *event {
            Event::Commit(n, tag, edit) => self.commit(alloc, n, tag, edit),
            _ => Ok(self.step(event)),
        }
    }
}
