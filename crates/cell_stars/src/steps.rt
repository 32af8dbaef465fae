//! Searches whose comparisons are counted.

ghost use Rattle.std.specs.Prelude.{◌≡◌, ℕ, ◌+◌, ◌*◌, ◌-◌, ◌<◌, ◌≤◌, ◌^◌, length, map, slice_index, MatchResult};
ghost use Rattle.std.specs.Ordering.{MatchOrdering};
ghost use Rattle.point_order.specs.Sets.{IsIn, IsAscending};

use point_order::Point;
use std::cmp::Ordering;
use std::marker::{Brand, Model};
use std::sync::ledger::{Blank, Book, Ledger, Share};

/// How many steps were taken. It takes no bytes, and only a comparison of a search changes it.
#[derive(Drop)]
pub struct Steps<L: Ledger> {
    book: Book<L>,
    share: Share<L>,
}

impl<L: Ledger> Model for Steps<L> {
    ghost use Rattle.std.specs.Prelude.{ℕ, ◌<◌};

    ghost Value = { ℕ };

    ghost view = { λ s. s.book.total };

    ghost invariant = { λ s. 0 < s.share.parts };
}

impl<L: Ledger> Steps<L> {
    /// No step so far. The blank is to be that of the ledger, with at least one part.
    pub fn begin(blank: Blank) -> Steps<L>
        requires name { blank.name ≡ L.name }
        requires parts { blank.parts ≡ L.parts }
        requires some { 0 < blank.parts }
    {
        let (book, share) = blank.open::<L>();
        Steps { book, share }
    }

    // One step more.
    fn tick(&mut self)
        ensures { self.new ≡ self.old + 1 }
    {
        self.book.add(&mut self.share, 1);
    }
}

// How two vertices stand, which is one step.
fn compare<L: Ledger>(a: Point, b: Point, steps: &mut Steps<L>) -> Ordering
    ensures order { MatchOrdering result (a < b) (a ≡ b) (b < a) }
    ensures cost { steps.new ≡ steps.old + 1 }
{
    steps.tick();
    a.cmp(&b)
}

// The vertex of a key.
fn vertex_of(key: &(Point, u32)) -> Point
    ensures { result ≡ key.now.0 }
{
    key.0
}

// Where a vertex stands among ascending ones, or else where it belongs.
pub(crate) fn place_counted<L: Ledger>(
    keys: &[(Point, u32)],
    p: Point,
    steps: &mut Steps<L>,
) -> Result<usize, usize>
    requires { IsAscending (map (λ k. k.0) keys.now) }
    ensures found { MatchResult result (λ i. (i < length keys.now)
        × (slice_index (map (λ k. k.0) keys.now) i ≡ p)) (λ i. (i ≤ length keys.now)
        × ((k : ℕ) → k < i → slice_index (map (λ k. k.0) keys.now) k < p)
        × ((k : ℕ) → i ≤ k → k < length keys.now → p < slice_index (map (λ k. k.0) keys.now) k)) }
    ensures rises { steps.old ≤ steps.new }
    ensures cost { 2 ^ (steps.new - steps.old) ≤ 2 * length keys.now + 1 }
{
    let mut low = 0;
    let mut high = keys.len();
    while low < high {
        let middle = low + (high - low) / 2;
        match compare(vertex_of(&keys[middle]), p, steps) {
            Ordering::Less => low = middle + 1,
            Ordering::Equal => return Ok(middle),
            Ordering::Greater => high = middle,
        }
    }
    Err(low)
}

// The same, by comparisons that are counted in a ledger of its own.
fn place_in<L: Ledger>(blank: Blank, keys: &[(Point, u32)], p: Point) -> Result<usize, usize>
    requires name { blank.name ≡ L.name }
    requires parts { blank.parts ≡ L.parts }
    requires some { 0 < blank.parts }
    requires order { IsAscending (map (λ k. k.0) keys.now) }
    ensures { MatchResult result (λ i. (i < length keys.now)
        × (slice_index (map (λ k. k.0) keys.now) i ≡ p)) (λ i. (i ≤ length keys.now)
        × ((k : ℕ) → k < i → slice_index (map (λ k. k.0) keys.now) k < p)
        × ((k : ℕ) → i ≤ k → k < length keys.now → p < slice_index (map (λ k. k.0) keys.now) k)) }
{
    let mut steps = Steps::<L>::begin(blank);
    place_counted(keys, p, &mut steps)
}

// The same, with no count.
pub(crate) fn place_of(keys: &[(Point, u32)], p: Point) -> Result<usize, usize>
    requires { IsAscending (map (λ k. k.0) keys.now) }
    ensures { MatchResult result (λ i. (i < length keys.now)
        × (slice_index (map (λ k. k.0) keys.now) i ≡ p)) (λ i. (i ≤ length keys.now)
        × ((k : ℕ) → k < i → slice_index (map (λ k. k.0) keys.now) k < p)
        × ((k : ℕ) → i ≤ k → k < length keys.now → p < slice_index (map (λ k. k.0) keys.now) k)) }
{
    place_in::<Brand>(Blank::new(1), keys, p)
}
