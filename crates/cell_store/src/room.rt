//! What a hold keeps ready, so that an exchange of cells takes no memory.

ghost use Rattle.std.specs.Prelude.{◌≡◌, ◌≢◌, ◌↔◌, ◌⊎◌, ℕ, true, false, not, IfOk, IfSome, IsSome, IsSomeAnd, IsTrue};
ghost use Rattle.std.specs.Prelude.{MatchOption, None, OnOk, Some, [], map};
ghost use Rattle.std.specs.Borrow.{sem};
ghost use Rattle.std.specs.Option.Follows.{option_follows_value};
ghost use Rattle.point_order.specs.Sets.{IsIn, IsAscending};
ghost use Rattle.list_laws.specs.Lists.{Gathers};
ghost use Rattle.cell_stars.specs.Plans.{IsOnceFor};
ghost use Rattle.cell_store.specs.Buckets.{layout_at};
ghost use Rattle.bucket_grid.specs.Grids.{bucket_of as number_of};
ghost use Rattle.cell_store.specs.Ready.{AreForOthers, AreFound, AreInHand, AreMade, AllRoomier, HasMuchRoom};
ghost use Rattle.cell_store.specs.Ready.{IsAllowed, IsExchangeMade, IsNoteReady, IsBucketOf, IsPointReady};
ghost use Rattle.cell_store.specs.Ready.{ArePlansReady, IsReadyFor, IsTurnedIn, buckets_of_cells};
ghost use Rattle.cell_store.specs.declared.room.PlanFor.{PlanFor};
ghost use Rattle.cell_store.specs.contracts.bucket.Bucket.{the_row};

use crate::bucket::Bucket;
use bucket_grid::Grid;
use cell_stars::{Matched, Plan, Stock};
use point_order::{Cell, Point};
use smallvec::SmallVec;
use std::alloc::{AllocError, Global};
use std::mem::{replace, swap};

// The cells that go and come in the exchange that is next, and the plan for each bucket that is touched: it is to be
// carried out there, or it was and is to be turned back.
#[derive(Debug, Drop)]
pub(crate) struct Exchange {
    pub(crate) gone: Vec<Cell>,
    pub(crate) fresh: Vec<Cell>,
    pub(crate) plans: Vec<PlanFor>,
    pub(crate) turned: bool,
}

// Lists that exchanges use again: those that are kept, and the exchange that was made last, which has more of them.
#[derive(Debug, Drop)]
pub(crate) struct Kept {
    stock: Stock,
    plans: Vec<PlanFor>,
    last: Option<Exchange>,
}

impl Kept {
    // Nothing is kept so far. It takes no memory.
    pub(crate) fn new(alloc: Global) -> Kept {
        Kept {
            stock: Stock::new(alloc),
            plans: Vec::new(alloc),
            last: None,
        }
    }

    // Takes the lists of the exchange that was made last.
    fn take_last(&mut self) {
        let Some(exchange) = self.last.take() else {
            return;
        };
        let Exchange {
            gone,
            fresh,
            mut plans,
            ..
        } = exchange;
        self.stock.keep_cells(gone);
        self.stock.keep_cells(fresh);
        while let Some(item) = plans.pop() {
            self.stock.keep(item.plan);
        }
        self.plans = plans;
    }

    // An empty list of plans with room for so many.
    fn list(&mut self, alloc: Global, count: usize) -> Result<Vec<PlanFor>, AllocError>
        ensures { IfOk result (λ list. list.items ≡ []) }
    {
        let mut list = replace(&mut self.plans, Vec::new(alloc));
        list.clear();
        list.reserve(count)?;
        Ok(list)
    }
}

// A plan, and the number of the bucket for which it is.
#[derive(Debug, Drop)]
pub(crate) struct PlanFor {
    pub(crate) number: u32,
    pub(crate) plan: Plan,
}

// The bucket with the number, if it is in hand.
pub(crate) fn bucket_in(places: &[Option<Bucket>], b: u32) -> Option<&Bucket>
    ensures { MatchOption result (layout_at places.now b ≡ None) (λ c. layout_at places.now b ≡ Some c.now) }
{
    match places.get(b as usize) {
        Some(Some(bucket)) => Some(bucket),
        _ => None,
    }
}

// A number is added once, as long as there are no more than so many; these take no memory.
const EARLY: usize = 8;

// Numbers of buckets. An exchange mostly touches few.
type Numbers = SmallVec<u32, EARLY>;

// Whether the number is one of the first ones.
fn is_early(numbers: &[u32], b: u32) -> bool
    ensures { IsTrue result → IsIn b numbers.now }
{
    numbers[..numbers.len().min(EARLY)].contains(&b)
}

// Adds the number, where it is not one of the first ones.
fn add_number(numbers: &mut Numbers, b: u32) -> Result<(), AllocError>
    ensures { OnOk result ((n : ℕ) → IsIn n numbers.new.items ↔ (IsIn n numbers.old.items ⊎ (b ≡ n))) }
{
    if !is_early(numbers, b) {
        numbers.push(b)?;
    }
    Ok(())
}

// Adds the numbers of the buckets of the points.
fn add_numbers_at(numbers: &mut Numbers, grid: Grid, points: &[Point]) -> Result<(), AllocError>
    ensures { OnOk result (Gathers (IsBucketOf grid) points.now numbers.old.items numbers.new.items) }
{
    for p in points {
        add_number(numbers, grid.bucket_of(*p))?;
    }
    Ok(())
}

// The numbers of the buckets of the points, ascending.
fn numbers_at(alloc: Global, grid: Grid, points: &[Point]) -> Result<Numbers, AllocError>
    ensures order { IfOk result (λ numbers. IsAscending numbers.items) }
    ensures numbers { IfOk result (λ numbers. (b : ℕ) → IsIn b numbers.items ↔ IsIn b
        (map (number_of grid) points.now)) }
{
    let mut numbers = Numbers::new(alloc);
    add_numbers_at(&mut numbers, grid, points)?;
    numbers.sort_unstable();
    numbers.dedup();
    Ok(numbers)
}

// The plan of an exchange for the bucket with the number, which is to be in hand.
fn plan_for(
    alloc: Global,
    stock: &mut Stock,
    b: u32,
    places: &[Option<Bucket>],
    gone: &[Cell],
    fresh: &[Cell],
    matched: &Matched,
    found: bool,
) -> Result<PlanFor, AllocError>
    requires held { IsSome (layout_at places.now b) }
    requires matched { IsOnceFor gone.now fresh.now matched.now }
    requires found { found ≡ true → AreFound gone.now fresh.now places.now }
    ensures number { IfOk result (λ plan. plan.number ≡ b) }
    ensures ready { IfOk result (λ plan. IsReadyFor false gone.now fresh.now places.now plan) }
{
    let Some(bucket) = bucket_in(places, b) else {
        unreachable!()
    };
    let plan = bucket.plan(alloc, stock, gone, fresh, matched, found)?;
    Ok(PlanFor { number: b, plan })
}

// The plans for all buckets that an exchange touches.
fn plans_for(
    alloc: Global,
    kept: &mut Kept,
    grid: Grid,
    places: &[Option<Bucket>],
    gone: &[Cell],
    fresh: &[Cell],
    found: bool,
) -> Result<Vec<PlanFor>, AllocError>
    requires gone { AreInHand places.now (buckets_of_cells grid gone.now) }
    requires fresh { AreInHand places.now (buckets_of_cells grid fresh.now) }
    requires found { found ≡ true → AreFound gone.now fresh.now places.now }
    ensures { IfOk result (λ plans. ArePlansReady false grid gone.now fresh.now places.now plans.items) }
{
    let matched = Matched::of(alloc, &mut kept.stock, grid, gone, fresh)?;
    let numbers = numbers_at(alloc, grid, matched.vertices())?;
    let mut plans = kept.list(alloc, numbers.len())?;
    for b in numbers.as_slice() {
        let stock = &mut kept.stock;
        plans.push(plan_for(alloc, stock, *b, places, gone, fresh, &matched, found)?)?;
    }
    kept.stock.keep_matched(matched);
    Ok(plans)
}

impl Exchange {
    // The plans of an exchange. The buckets that it touches are to be in hand, and have its cells where that is told.
    pub(crate) fn new(
        alloc: Global,
        kept: &mut Kept,
        grid: Grid,
        places: &[Option<Bucket>],
        gone: &[Cell],
        fresh: &[Cell],
        found: bool,
    ) -> Result<Exchange, AllocError>
        requires gone { AreInHand places.now (buckets_of_cells grid gone.now) }
        requires fresh { AreInHand places.now (buckets_of_cells grid fresh.now) }
        requires found { found ≡ true → AreFound gone.now fresh.now places.now }
        ensures gone { IfOk result (λ e. e.gone.items ≡ gone.now) }
        ensures fresh { IfOk result (λ e. e.fresh.items ≡ fresh.now) }
        ensures ready { IfOk result (λ e. ArePlansReady e.turned grid gone.now fresh.now places.now e.plans.items) }
    {
        kept.take_last();
        let plans = plans_for(alloc, kept, grid, places, gone, fresh, found)?;
        Ok(Exchange {
            gone: kept.stock.copied(alloc, gone)?,
            fresh: kept.stock.copied(alloc, fresh)?,
            plans,
            turned: false,
        })
    }

    // Makes the exchange, and is that back then. It takes no memory.
    pub(crate) fn make(&mut self, places: &mut [Option<Bucket>])
        requires allowed { (l : PlanFor) → IsIn l self.old.plans.items → IsAllowed self.old.turned places.old l }
        requires apart { AreForOthers self.old.plans.items }
        ensures made { AreMade self.old.turned self.old.plans.items self.new.plans.items places.old places.new }
        ensures gone { self.new.gone ≡ self.old.fresh }
        ensures fresh { self.new.fresh ≡ self.old.gone }
        ensures turned { self.new.turned ≡ not self.old.turned }
    {
        turn_all(places, &mut self.plans, self.turned);
        swap(&mut self.gone, &mut self.fresh);
        self.turned = !self.turned;
    }
}

// Makes an exchange, and gives the one back, if that is wanted; else it is kept for its lists.
pub(crate) fn made(
    exchange: Exchange,
    kept: &mut Kept,
    places: &mut [Option<Bucket>],
    back: bool,
) -> Option<Exchange>
    requires allowed { (l : PlanFor) → IsIn l exchange.plans.items → IsAllowed exchange.turned places.old l }
    requires apart { AreForOthers exchange.plans.items }
    ensures { IsExchangeMade back exchange result places.old places.new }
{
    let mut exchange = exchange;
    exchange.make(places);
    if back {
        return Some(exchange);
    }
    kept.last = Some(exchange);
    None
}

// The bucket, which is to be there.
pub(crate) fn bucket_mut(place: &mut Option<Bucket>) -> &mut Bucket
    requires { IsSome place.old }
    ensures value { place.old ≡ Some result.now }
    ensures* writes_back { sem 𝓛 (option_follows_value the_row place.entry result) }
{
    match place {
        Some(bucket) => bucket,
        None => unreachable!(),
    }
}

// Makes room for an entry in the bucket of the point, if there is one, and for one point more.
fn make_room_at(
    places: &mut [Option<Bucket>],
    grid: Grid,
    p: &Option<Point>,
) -> Result<(), AllocError>
    requires { IfSome p.now (λ p. IsSome (layout_at places.old (number_of grid p))) }
    ensures same { AllRoomier places.old places.new }
    ensures room { OnOk result (IfSome p.now (λ p. IsSomeAnd (layout_at places.new (number_of grid p)) HasMuchRoom)) }
{
    match p {
        Some(p) => bucket_mut(&mut places[grid.bucket_of(*p) as usize]).make_room(),
        None => Ok(()),
    }
}

// Makes room for an entry of the one point, and for the other point to come and go, if there are such.
pub(crate) fn make_rooms(
    places: &mut [Option<Bucket>],
    grid: Grid,
    note: &Option<Point>,
    point: &Option<Point>,
) -> Result<(), AllocError>
    requires note { IfSome note.now (λ p. IsSome (layout_at places.old (number_of grid p))) }
    requires point { IfSome point.now (λ p. IsSome (layout_at places.old (number_of grid p))) }
    ensures same { AllRoomier places.old places.new }
    ensures note { OnOk result (IfSome note.now (λ p. IsNoteReady grid places.new p)) }
    ensures point { OnOk result (IfSome point.now (λ p. IsPointReady grid places.new p)) }
{
    make_room_at(places, grid, note)?;
    make_room_at(places, grid, point)
}

// Carries the plan out in its bucket, which is to be there, or turns it back.
fn turn(places: &mut [Option<Bucket>], item: &mut PlanFor, turned: bool)
    requires { IsAllowed turned places.old item.old }
    ensures turned { IsTurnedIn turned item.old item.new places.old places.new }
    ensures others { (b : ℕ) → b ≢ item.old.number → layout_at places.new b ≡ layout_at places.old b }
{
    bucket_mut(&mut places[item.number as usize]).turn(&mut item.plan, turned);
}

// Carries each plan out in its bucket, or turns each back. There is to be one at most for each bucket.
fn turn_all(places: &mut [Option<Bucket>], plans: &mut [PlanFor], turned: bool)
    requires allowed { (l : PlanFor) → IsIn l plans.old → IsAllowed turned places.old l }
    requires apart { AreForOthers plans.old }
    ensures { AreMade turned plans.old plans.new places.old places.new }
{
    for item in plans.iter_mut() {
        turn(places, item, turned);
    }
}
