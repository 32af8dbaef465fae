//! Exchanges of a hold: room for them, and the entries and points that go with them.

ghost use Rattle.std.specs.Prelude.{◌≡◌, ℕ, ◌-◌, ◌<◌, true, false, None, Some, IsSome, IfSome, OnOk, OnErr, List};
ghost use Rattle.point_order.specs.Sets.{is_among};
ghost use Rattle.point_order.specs.declared.cell.Cell.{Cell};
ghost use Rattle.edit_history.specs.Edits.{edit_points, point_of};
ghost use Rattle.bucket_grid.specs.Grids.{bucket_of as number_of};
ghost use Rattle.cell_store.specs.Buckets.{room_both, room_for, swap_after, bucket_at, points_at};
ghost use Rattle.cell_store.specs.Changes.{IsArrived, IsDropped, IsNoted, IsPut, IsSwapped};
ghost use Rattle.cell_store.specs.Missing.{ArePointsHeld};
ghost use Rattle.cell_store.specs.Between.{Enters, HasWay, IsEntered, IsLeft, WasEntered};
ghost use Rattle.cell_store.specs.Points.{came, goal_of, last_of};
ghost use Rattle.cell_store.specs.Ready.{AreHeld, CanCome, FindsCells};

use crate::hold::Hold;
use crate::note::{came_by, goal, last};
use crate::room::{Exchange, bucket_mut, made, make_rooms};
use edit_history::{Edit, Entry};
use point_order::{Cell, Point};
use std::alloc::{AllocError, Global};

// What there is to be room for beside an exchange, and what is known of it.
#[derive(Clone, Copy)]
struct Wanted {
    // The point of the entry that is put last.
    note: Option<Point>,
    // The point that comes and goes.
    point: Option<Point>,
    // The exchange is made back too.
    back: bool,
    // The exchange finds its cells, so that no fresh one is looked for.
    found: bool,
}

impl Wanted {
    // Room for an entry of the edit, and for the place to which it moves a point, beside an exchange that is made once.
    fn once(edit: &Edit) -> Wanted
        ensures { result ≡ record
            { note = Some (point_of edit.now); point = goal_of edit.now; back = false; found = false } }
    {
        Wanted {
            note: Some(edit.point()),
            point: goal(edit),
            back: false,
            found: false,
        }
    }

    // Room for the last point of the edit, beside an exchange that is made there and back.
    fn both(edit: &Edit) -> Wanted
        ensures { result ≡ record { note = None; point = Some (last_of edit.now); back = true; found = false } }
    {
        Wanted {
            note: None,
            point: Some(last(edit)),
            back: true,
            found: false,
        }
    }
}

impl Hold {
    /// Makes room for one exchange of the gone for the fresh cells and for one entry of the edit, which then take no
    /// memory; for that of a move also for its new place to come. The buckets of all finite vertices of the cells, and
    /// of the points of the edit, are to be in hand.
    ///
    /// # Errors
    /// Want of memory. The room is then as before.
    pub fn reserve(
        &mut self,
        alloc: Global,
        gone: &[Cell],
        fresh: &[Cell],
        edit: &Edit,
    ) -> Result<(), AllocError>
        requires gone { AreHeld self.old gone.now }
        requires fresh { AreHeld self.old fresh.now }
        requires points { ArePointsHeld self.old (edit_points edit.now) }
        ensures ok { OnOk result (self.new ≡ record self.old { room = room_for gone.now fresh.now edit.now }) }
        ensures err { OnErr result (self.new ≡ self.old) }
    {
        self.make_ready(alloc, gone, fresh, Wanted::once(edit))
    }

    /// Makes the room that `reserve` makes, for an exchange that is to find its cells: in the buckets in hand all gone
    /// cells that touch them are there, and no fresh one is. It looks for no fresh cell.
    ///
    /// # Errors
    /// Want of memory. The room is then as before.
    pub fn reserve_found(
        &mut self,
        alloc: Global,
        gone: &[Cell],
        fresh: &[Cell],
        edit: &Edit,
    ) -> Result<(), AllocError>
        requires gone { AreHeld self.old gone.now }
        requires fresh { AreHeld self.old fresh.now }
        requires points { ArePointsHeld self.old (edit_points edit.now) }
        requires found { FindsCells self.old gone.now fresh.now }
        ensures ok { OnOk result (self.new ≡ record self.old { room = room_for gone.now fresh.now edit.now }) }
        ensures err { OnErr result (self.new ≡ self.old) }
    {
        let wanted = Wanted {
            found: true,
            ..Wanted::once(edit)
        };
        self.make_ready(alloc, gone, fresh, wanted)
    }

    /// Makes the room that `reserve_both` makes, for an exchange that is to find its cells, as `reserve_found` does.
    ///
    /// # Errors
    /// Want of memory. The room is then as before.
    pub fn reserve_both_found(
        &mut self,
        alloc: Global,
        gone: &[Cell],
        fresh: &[Cell],
        edit: &Edit,
    ) -> Result<(), AllocError>
        requires gone { AreHeld self.old gone.now }
        requires fresh { AreHeld self.old fresh.now }
        requires points { ArePointsHeld self.old (edit_points edit.now) }
        requires found { FindsCells self.old gone.now fresh.now }
        ensures ok { OnOk result (self.new ≡ record self.old { room = room_both gone.now fresh.now edit.now }) }
        ensures err { OnErr result (self.new ≡ self.old) }
    {
        let wanted = Wanted {
            found: true,
            ..Wanted::both(edit)
        };
        self.make_ready(alloc, gone, fresh, wanted)
    }

    /// Makes room for exchanges of the gone for the fresh cells there and back, and for the last point of the edit to
    /// come and go: none of this takes memory then, however often it is done, until there is room for something else
    /// or a bucket is given away. The buckets that `reserve` needs are to be in hand.
    ///
    /// # Errors
    /// Want of memory. The room is then as before.
    pub fn reserve_both(
        &mut self,
        alloc: Global,
        gone: &[Cell],
        fresh: &[Cell],
        edit: &Edit,
    ) -> Result<(), AllocError>
        requires gone { AreHeld self.old gone.now }
        requires fresh { AreHeld self.old fresh.now }
        requires points { ArePointsHeld self.old (edit_points edit.now) }
        ensures ok { OnOk result (self.new ≡ record self.old { room = room_both gone.now fresh.now edit.now }) }
        ensures err { OnErr result (self.new ≡ self.old) }
    {
        self.make_ready(alloc, gone, fresh, Wanted::both(edit))
    }

    // Makes room for an exchange and for what is wanted beside it.
    fn make_ready(
        &mut self,
        alloc: Global,
        gone: &[Cell],
        fresh: &[Cell],
        wanted: Wanted,
    ) -> Result<(), AllocError>
        requires gone { AreHeld self.old gone.now }
        requires fresh { AreHeld self.old fresh.now }
        requires note { IfSome wanted.note (λ p. IsSome (bucket_at self.old.places (number_of self.old.grid p))) }
        requires point { IfSome wanted.point (λ p. IsSome (bucket_at self.old.places (number_of self.old.grid p))) }
        requires found { wanted.found ≡ true → FindsCells self.old gone.now fresh.now }
        ensures ok { OnOk result (self.new ≡ record self.old {
          room = record
              { swap = Some (gone.now, fresh.now); push = wanted.note; point = wanted.point; back = wanted.back };
        }) }
        ensures err { OnErr result (self.new ≡ self.old) }
    {
        let grid = self.grid();
        let kept = &mut self.kept;
        let exchange = Exchange::new(alloc, kept, grid, &self.places, gone, fresh, wanted.found)?;
        make_rooms(&mut self.places, grid, &wanted.note, &wanted.point)?;
        self.exchange = Some(exchange);
        self.note = wanted.note;
        self.point = wanted.point;
        self.back = wanted.back;
        Ok(())
    }

    /// Takes the gone cells out of the buckets of their finite vertices, and puts the fresh ones in. There is to be
    /// room for this exchange, which it uses up; or it can be made back, and then it is to find its cells, and there is
    /// room for the one back. It takes no memory.
    pub fn swap_cells(&mut self, gone: &[Cell], fresh: &[Cell])
        requires room { self.old.room.swap ≡ Some (gone.now, fresh.now) }
        requires found { self.old.room.back ≡ true → FindsCells self.old gone.now fresh.now }
        ensures swapped { IsSwapped gone.now fresh.now self.old self.new }
        ensures room { self.new.room ≡ record self.old.room
            { swap = swap_after self.old.room.back gone.now fresh.now } }
    {
        if let Some(exchange) = self.exchange.take() {
            self.exchange = made(exchange, &mut self.kept, &mut self.places, self.back);
        }
    }

    /// Puts the entry last in the bucket of its point, and the point in or out as its reply says. There is to be room
    /// for an entry of this point, which it uses up; of the entry of a move that was made the new place is to be there.
    /// It takes no memory.
    pub fn push_entry(&mut self, entry: Entry)
        requires { self.old.room.push ≡ Some (point_of entry.edit) }
        ensures noted { IsNoted entry self.old self.new }
        ensures room { self.new.room ≡ record self.old.room { push = None; point = None } }
    {
        let b = self.grid().bucket_of(entry.edit.point()) as usize;
        bucket_mut(&mut self.places[b]).note(entry);
        self.note = None;
        self.point = None;
    }

    /// Puts the point into its bucket, where it is not there. There is to be room for it to come and go. It takes no
    /// memory.
    pub fn put_point(&mut self, p: Point)
        requires room { self.old.room.point ≡ Some p }
        requires absent { is_among p (points_at self.old.places (number_of self.old.grid p)) ≡ false }
        ensures put { IsPut p self.old self.new }
        ensures room { self.new.room ≡ self.old.room }
    {
        let b = self.grid().bucket_of(p) as usize;
        bucket_mut(&mut self.places[b]).put_point(p);
    }

    /// Takes the point out of its bucket, where it is there. There is to be room for it to come and go.
    pub fn drop_point(&mut self, p: Point)
        requires room { self.old.room.point ≡ Some p }
        requires present { is_among p (points_at self.old.places (number_of self.old.grid p)) ≡ true }
        ensures dropped { IsDropped p self.old self.new }
        ensures room { self.new.room ≡ self.old.room }
    {
        let b = self.grid().bucket_of(p) as usize;
        bucket_mut(&mut self.places[b]).drop_point(p);
    }

    /// Puts the place to which a point has moved into its bucket, if the entry tells of one. There is to be room for
    /// it, and it is not to be there. It takes no memory.
    pub fn put_goal(&mut self, entry: &Entry)
        requires { IfSome (came entry.now.edit entry.now.reply) (CanCome self.old) }
        ensures arrived { IsArrived entry.now self.old self.new }
        ensures room { self.new.room ≡ self.old.room }
    {
        if let Some(p) = came_by(entry) {
            self.put_point(p);
        }
    }

    /// Makes the exchange and puts the point in, which is new to a set that the hold shows and changes exactly these
    /// cells of its complex. There is to be room for both, there and back. The hold shows the set with the point then.
    pub fn enter(&mut self, gone: &[Cell], fresh: &[Cell], p: Point)
        requires room { HasWay self.old gone.now fresh.now p }
        requires enters { (s : List ℕ) × Enters self.old s gone.now fresh.now p }
        ensures entered { IsEntered gone.now fresh.now p self.old self.new }
        ensures room { self.new.room ≡ record self.old.room { swap = Some (fresh.now, gone.now) } }
    {
        self.swap_cells(gone, fresh);
        self.put_point(p);
    }

    /// Takes the point out again and makes the exchange back. The hold is then as before it was entered.
    pub fn leave(&mut self, gone: &[Cell], fresh: &[Cell], p: Point)
        requires room { HasWay self.old fresh.now gone.now p }
        requires entered { WasEntered gone.now fresh.now p self.old }
        ensures left { IsLeft gone.now fresh.now p self.old self.new }
        ensures room { self.new.room ≡ record self.old.room { swap = Some (gone.now, fresh.now) } }
    {
        self.drop_point(p);
        self.swap_cells(fresh, gone);
    }
}
