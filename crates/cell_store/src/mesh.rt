//! Meshes: all buckets of a grid.

ghost use Rattle.std.specs.Prelude.{◌≡◌, ◌*◌, ◌<◌, ◌∷◌, ◌++◌, [], true, IfOk, OnOk, OnErr, length};
ghost use Rattle.std.specs.Fn.{FnOnceReturnsAt};
ghost use Rattle.point_order.specs.Complex.{complex};
ghost use Rattle.point_order.specs.Sets.{with_point as with};
ghost use Rattle.edit_history.specs.Histories.{replay};
ghost use Rattle.hole_laws.specs.Edits.{IsNew};
ghost use Rattle.cell_store.specs.Between.{ShowsWhole};
ghost use Rattle.bucket_grid.specs.Grids.{is_grid_size};
ghost use Rattle.cell_store.specs.Buckets.{InHand, content_of};
ghost use Rattle.cell_store.specs.Shares.{IsSound, share_at};
ghost use Rattle.cell_store.specs.Changes.{Follows};
ghost use Rattle.cell_changes.specs.Changes.{IsChange};
ghost use Rattle.cell_store.specs.Meshes.{AllInHand, HasPlaces, IsHoldOf, StandsForSome, history_in, mesh_in};
ghost use Rattle.cell_store.specs.Meshes.{within_64_bits};

use crate::bucket::Bucket;
use crate::hold::Hold;
use crate::note::know_keys;
use bucket_grid::Grid;
use edit_history::{Edit, Entry};
use point_order::{Cell, Point};
use std::alloc::{AllocError, Global};
use std::marker::Model;

/// A grid with every bucket at home, whose buckets are the shares of one legal history of a solid set.
///
/// Contracts see it as its grid and its history.
#[derive(Debug, Drop)]
pub struct Mesh {
    hold: Hold,
    count: u64,
}

impl Model for Mesh {
    ghost use Rattle.std.specs.Prelude.{◌≡◌, ◌*◌, length};
    ghost use Rattle.cell_store.specs.Meshes.{MeshView, IsHoldOf, history_in, mesh_in, within_64_bits};

    ghost Value = { MeshView };

    ghost view = { λ m. mesh_in m.hold };

    ghost invariant = { λ m. IsHoldOf (mesh_in m.hold) m.hold
        × (m.count ≡ within_64_bits (length (history_in m.hold.places))) };
}

impl Mesh {
    /// The buckets, all in hand.
    pub fn into_hold(self) -> Hold
        ensures { IsHoldOf self result }
    {
        self.hold
    }

    /// The buckets, all in hand.
    pub fn hold(&self) -> &Hold
        ensures { IsHoldOf self.now result.now }
    {
        &self.hold
    }

    /// The grid whose buckets these are.
    pub fn grid(&self) -> Grid
        ensures grid { result ≡ self.now.grid }
        ensures size { is_grid_size self.now.grid ≡ true }
    {
        self.hold.grid()
    }

    /// The bucket with the number, which is to be below the grid's count.
    pub fn bucket(&self, b: u32) -> &Bucket
        requires { b < self.now.grid * self.now.grid * self.now.grid }
        ensures { content_of result.now ≡ share_at self.now.grid b self.now.history }
    {
        self.hold.bucket(b)
    }

    /// How many entries there are so far. Where they are more than 64 bits can count, it is the greatest number of 64
    /// bits.
    pub fn count(&self) -> u64
        ensures count { result ≡ within_64_bits (length self.now.history) }
        ensures sound { IsSound self.now.history }
    {
        self.count
    }

    /// Makes the change that an entry makes of the mesh: takes the gone cells out, puts the fresh ones in, and puts
    /// the entry last and its point in or out as its reply says. The entry is to follow the history, with exactly
    /// this change of cells.
    ///
    /// # Errors
    /// Want of memory. The mesh is then as before.
    pub fn change(
        &mut self,
        alloc: Global,
        gone: &[Cell],
        fresh: &[Cell],
        entry: Entry,
    ) -> Result<(), AllocError>
        requires { Follows self.old.history entry gone.now fresh.now }
        ensures changed { OnOk result (self.new ≡ record self.old { history = self.old.history ++ entry ∷ [] }) }
        ensures refused { OnErr result (self.new ≡ self.old) }
    {
        know_keys(&entry.edit);
        self.hold.reserve_found(alloc, gone, fresh, &entry.edit)?;
        self.hold.swap_cells(gone, fresh);
        self.hold.put_goal(&entry);
        self.hold.push_entry(entry);
        self.count = self.count.saturating_add(1);
        Ok(())
    }
}

impl Mesh {
    /// Lends the buckets, with one point more, to the function. The point is to be new to those that the history
    /// leaves, and to change exactly these cells of their complex. The mesh is then as before.
    ///
    /// # Errors
    /// Want of memory. The function was not called then.
    pub fn with_point<T: Drop, F: FnOnce(&Hold) -> T>(
        &mut self,
        alloc: Global,
        gone: &[Cell],
        fresh: &[Cell],
        p: Point,
        look: F,
    ) -> Result<T, AllocError>
        requires new { IsNew (replay self.old.history) p }
        requires change { IsChange (complex (replay self.old.history)) (complex (with p (replay self.old.history)))
            gone.now fresh.now }
        requires look { (hold : _) → ShowsWhole hold.now (with p (replay self.old.history)) → F.pre look hold }
        ensures same { self.new ≡ self.old }
        ensures found { IfOk result (λ found. (hold : InHand) × ShowsWhole hold (with p (replay self.old.history))
            × FnOnceReturnsAt F.FnOnce look hold found) }
    {
        self.hold.reserve_both(alloc, gone, fresh, &Edit::Add(p))?;
        self.hold.enter(gone, fresh, p);
        let found = look(&self.hold);
        self.hold.leave(gone, fresh, p);
        Ok(found)
    }
}

impl Hold {
    /// The mesh of these buckets, which are all to be in hand, and the shares of one legal history of a solid set.
    pub fn into_mesh(self) -> Mesh
        requires all { AllInHand self }
        requires stands { StandsForSome self }
        ensures mesh { result ≡ mesh_in self }
        ensures hold { IsHoldOf result self }
    {
        let count = self.count_entries();
        Mesh { hold: self, count }
    }

    // How many entries all buckets have together, which are all to be in hand.
    pub(crate) fn count_entries(&self) -> u64
        requires { AllInHand self.now }
        ensures count { result ≡ within_64_bits (length (history_in self.now.places)) }
        ensures has { HasPlaces self.now }
    {
        let mut count: u64 = 0;
        for b in 0..self.grid().count() {
            let entries = self.bucket(b).entries().len() as u64;
            count = count.saturating_add(entries);
        }
        count
    }
}
