//! What a new point changes, found by turns.

ghost use Rattle.std.specs.Prelude.{IfOk};
ghost use Rattle.insertion.specs.declared.arrival.Arrival.TheVariants.{Seeks as IsSeeking, Digs as IsDigging};
ghost use Rattle.insertion.specs.Arrivals.{IsBegun, ShowsArrival, ArrivalAnswers};

use crate::search::{Search, SearchTurn};
use cavity::{Dig, DigTurn, Fresh, fill};
use cell_store::Hold;
use point_order::Point;
use std::alloc::{AllocError, Global};

/// The search for the cells that a new point takes away, and for those that it brings.
#[derive(Debug, Drop)]
pub enum Arrival {
    /// The search for a first cell.
    Seeks(Search),
    /// The dig that began in it.
    Digs(Dig),
}

/// What a turn of an arrival comes to.
#[derive(Debug, Drop)]
pub enum ArrivalTurn {
    /// The cells that go, and those that come. All buckets of the points of the former are in hand.
    Done(Fresh),
    /// The bucket with this number is not in hand; with it the arrival goes on.
    Need(u32, Arrival),
}

impl Arrival {
    /// The arrival that begins with a walk from a point that lies near.
    pub fn begin() -> Arrival
        ensures { IsBegun result }
    {
        Arrival::Seeks(Search::begin())
    }

    /// Looks on over the buckets in hand for what the new point changes. Between two turns buckets may come to the
    /// hold. The answer is right for each set that the hold shows.
    ///
    /// # Errors
    /// Want of memory.
    pub fn advance(self, alloc: Global, hold: &Hold, p: Point) -> Result<ArrivalTurn, AllocError>
        requires { ShowsArrival hold.now p self }
        ensures { IfOk result (ArrivalAnswers hold.now p self) }
    {
        match self {
            Arrival::Seeks(search) => seek(alloc, hold, p, search),
            Arrival::Digs(dig) => dig_on(alloc, hold, p, dig),
        }
    }
}

// Goes on with the search for a first cell, and digs from there.
fn seek(alloc: Global, hold: &Hold, p: Point, search: Search) -> Result<ArrivalTurn, AllocError>
    requires { ShowsArrival hold.now p (IsSeeking search) }
    ensures { IfOk result (ArrivalAnswers hold.now p (IsSeeking search)) }
{
    match search.advance(hold, p) {
        SearchTurn::Here(cell) => {
            let dig = Dig::start(alloc, p, cell)?;
            dig_on(alloc, hold, p, dig)
        }
        SearchTurn::Need(b, next) => Ok(ArrivalTurn::Need(b, Arrival::Seeks(next))),
    }
}

// Digs on, to the end or until a bucket is needed.
fn dig_on(alloc: Global, hold: &Hold, p: Point, begun: Dig) -> Result<ArrivalTurn, AllocError>
    requires { ShowsArrival hold.now p (IsDigging begun) }
    ensures { IfOk result (ArrivalAnswers hold.now p (IsDigging begun)) }
{
    let mut dig = begun;
    match dig.advance(alloc, hold)? {
        DigTurn::Done => {
            let change = fill(alloc, &dig)?;
            Ok(ArrivalTurn::Done(change))
        }
        DigTurn::Need(b) => Ok(ArrivalTurn::Need(b, Arrival::Digs(dig))),
    }
}
