//! The table.

ghost use Rattle.std.specs.Prelude.{◌≡◌, ◌+◌, ◌^◌, ◌<◌, ◌≤◌, ◌∷◌, ◌++◌, [], length, IfOk, IfErr, OnErr};
ghost use Rattle.claim_rule.specs.Good.{StartsWith};
ghost use Rattle.claim_table.specs.declared.view.Act.TheVariants.{Look};
ghost use Rattle.grid_claims.specs.Tries.{opening_pass, IsSplit, joined, IsEdited, IsRefused, IsShown, IsUnshown};

use crate::claiming::prepare;
use crate::finish::finish;
use crate::pass::Pass;
use crate::refused::Refused;
use crate::snapshot::{Snapshot, copy_all};
use cell_store::{Hold, Mesh};
use claim_table::{
    Board, Hands, Together, board_for, empty_hands, gather, let_go, look_and_let_go, look_at, part,
};
use edit_gates::{Gate, Moment};
use edit_history::{Edit, Receipt};
use std::alloc::{AllocError, Global};
use std::marker::Model;

/// A mesh that several threads edit, each by a pass of its own.
#[derive(Drop)]
pub struct MeshTable {
    board: Board,
    hold: Hold,
}

impl Model for MeshTable {
    ghost use Rattle.std.specs.Prelude.{◌≡◌, ◌+◌, ◌*◌, ◌≤◌, ◌^◌, ℕ, None, length, replicate};
    ghost use Rattle.cell_store.specs.Buckets.{no_room};
    ghost use Rattle.claim_table.specs.Faces.{opening_of, buckets_of};
    ghost use Rattle.grid_claims.specs.Passes.{Opened};

    ghost Value = { Opened };

    ghost view = { λ t.
        record {
          id = t.board.shared.table_id;
          grid = t.board.shared.key.grid;
          parts = t.board.shared.key.parts;
          opening = opening_of t.board.shared.key;
        } };

    ghost invariant = { λ t. (t.board.shared.table_id.words ≡ buckets_of t.board.shared.key + 1)
        × (t.board.shared.table_id.slots ≡ buckets_of t.board.shared.key)
        × (t.hold ≡ record {
          grid = t.board.shared.key.grid;
          places = replicate (buckets_of t.board.shared.key) None;
          room = no_room;
        }) };
}

impl MeshTable {
    /// A table for the mesh, with so many parts, and its first pass, which owns all of them and may make so many edits.
    /// A part is the leave for one more pass; a pass goes by the number of its first one.
    ///
    /// There are to be 1 to 64 parts, and at most 2^32 entries with all that may come.
    ///
    /// # Errors
    /// Want of memory. The mesh is then dropped.
    pub fn open(
        alloc: Global,
        mesh: Mesh,
        parts: u32,
        allowance: u64,
    ) -> Result<(MeshTable, Pass), AllocError>
        requires parts { (0 < parts) × (parts ≤ 64) }
        requires room { length mesh.history + allowance ≤ 2 ^ 32 }
        ensures grid { IfOk result (λ r. r.0.grid ≡ mesh.grid) }
        ensures parts { IfOk result (λ r. r.0.parts ≡ parts) }
        ensures opening { IfOk result (λ r. r.0.opening ≡ mesh.history) }
        ensures pass { IfOk result (λ r. r.1 ≡ opening_pass r.0 allowance) }
    {
        let grid = mesh.grid();
        let seen = mesh.count();
        let hold = Hold::empty(alloc, grid)?;
        let (held, order) = empty_hands(alloc, grid)?;
        let (board, place) = board_for(alloc, mesh, parts, allowance)?;
        let table = MeshTable { board, hold };
        let pass = Pass {
            hands: Hands {
                place,
                hold: held,
                order,
                first: 0,
            },
            parts,
            left: allowance,
            seen,
        };
        Ok((table, pass))
    }

    /// Gives the last parts of a pass, so many, and so much of its allowance to a new pass. The pass is to be one of
    /// this table and to keep a part; it gives no more allowance than it has left.
    ///
    /// # Errors
    /// Want of memory. The pass is then as before.
    pub fn split(
        &self,
        alloc: Global,
        pass: &mut Pass,
        parts: u32,
        allowance: u64,
    ) -> Result<Pass, AllocError>
        requires table { pass.old.table ≡ self.now }
        requires parts { (0 < parts) × (parts < pass.old.parts) }
        requires left { allowance ≤ pass.old.left }
        ensures split { IfOk result (λ other. IsSplit parts allowance pass.old pass.new other) }
        ensures refused { OnErr result (pass.new ≡ pass.old) }
    {
        let (hold, order) = empty_hands(alloc, pass.hands.hold.grid())?;
        let (found, place) = part(&self.board, &mut pass.hands.place, parts, allowance);
        pass.parts -= parts;
        pass.left -= allowance;
        pass.seen = found;
        let first = pass.hands.first + pass.parts;
        Ok(Pass {
            hands: Hands {
                place,
                hold,
                order,
                first,
            },
            parts,
            left: allowance,
            seen: found,
        })
    }

    /// Puts the parts of another pass, which come next, to those of a pass. Both are to be of this table.
    pub fn join(&self, pass: &mut Pass, other: Pass)
        requires table { pass.old.table ≡ self.now }
        requires other { other.table ≡ self.now }
        requires next { other.first ≡ pass.old.first + pass.old.parts }
        ensures { pass.new ≡ joined pass.old other }
    {
        let Pass {
            hands,
            parts,
            left,
            seen,
        } = other;
        let Hands { place, .. } = hands;
        self.board
            .shared
            .join_seat::<Together>(&mut pass.hands.place, place);
        pass.parts += parts;
        pass.left += left;
        pass.seen = pass.seen.max(seen);
    }

    /// Makes an edit, and answers its number and its reply. The pass is to be one of this table. A move is one entry:
    /// it claims the bucket of the place that the point leaves, then that of its new place, then what it needs more.
    ///
    /// # Errors
    /// The pass may make no more edits, which is seen first; or a bucket is in another pass's hands; or want of memory.
    /// Mesh and pass are then as before, but for the pass's trail.
    pub fn try_edit<G: Gate>(
        &self,
        alloc: Global,
        pass: &mut Pass,
        tag: u32,
        edit: Edit,
        gate: &G,
    ) -> Result<Receipt, Refused>
        requires table { pass.old.table ≡ self.now }
        ensures edited { IfOk result (λ r. IsEdited tag edit r.number r.reply pass.old pass.new) }
        ensures refused { IfErr result (λ why. IsRefused pass.old why pass.new) }
    {
        if pass.left == 0 {
            return Err(Refused::Spent);
        }
        // Nothing is read: the call promises that the hold has a place for each bucket of the grid.
        let _ = pass.hands.hold.grid();
        gate.pass(pass.hands.first, Moment::Start);
        let (again, board) = (edit, &self.board);
        match prepare(board, &mut pass.hands, alloc, again) {
            Ok(plan) => {
                gate.pass(pass.hands.first, Moment::Ready);
                let receipt = finish(board, &mut pass.hands, tag, edit, plan, gate);
                pass.left -= 1;
                pass.seen = receipt.number + 1;
                gate.pass(pass.hands.first, Moment::Done);
                Ok(receipt)
            }
            Err(why) => {
                let_go(board, &mut pass.hands);
                gate.pass(pass.hands.first, Moment::Done);
                Err(why)
            }
        }
    }

    /// How many entries there are. The pass is to be one of this table.
    pub fn look(&self, pass: &mut Pass) -> u64
        requires table { pass.old.table ≡ self.now }
        ensures later { pass.old.seen ≤ result }
        ensures pass { pass.new ≡ record pass.old { seen = result; trail = pass.old.trail ++ Look result ∷ [] } }
    {
        let found = look_at(&self.board, &mut pass.hands.place);
        pass.seen = found;
        found
    }

    /// The history so far and its complex, beside passes that edit. It claims every
    /// bucket. The pass is to be one of this table.
    ///
    /// # Errors
    /// A bucket is in another pass's hands; or want of memory. Mesh and pass are
    /// then as before, but for the pass's trail.
    pub fn try_snapshot(&self, alloc: Global, pass: &mut Pass) -> Result<Snapshot, Refused>
        requires table { pass.old.table ≡ self.now }
        ensures shown { IfOk result (λ s. IsShown s.history.items s.complex.items pass.old pass.new) }
        ensures refused { IfErr result (λ why. IsUnshown pass.old why pass.new) }
    {
        // Nothing is read: the call promises that the hold has a place for each bucket of the grid.
        let _ = pass.hands.hold.grid();
        let board = &self.board;
        match copy_all(board, &mut pass.hands, alloc) {
            Ok(snapshot) => {
                pass.seen = look_and_let_go(board, &mut pass.hands);
                Ok(snapshot)
            }
            Err(why) => {
                let_go(board, &mut pass.hands);
                Err(why)
            }
        }
    }

    /// The mesh, from a pass of this table that owns all parts. It takes no memory.
    pub fn close(self, pass: Pass) -> Mesh
        requires table { pass.table ≡ self }
        requires all { pass.parts ≡ self.parts }
        ensures mesh { result ≡ record { grid = self.grid; history = self.opening ++ pass.made } }
        ensures known { StartsWith (self.opening ++ pass.made) pass.known }
        ensures seen { pass.seen ≤ length (self.opening ++ pass.made) }
    {
        let MeshTable { board, mut hold } = self;
        let Pass { hands, .. } = pass;
        let Hands { place, .. } = hands;
        let mut closed = board.close_with(place);
        gather(&mut closed, &mut hold);
        closed.free();
        // Nothing is read: the call promises that the hold has a place for each bucket of a grid.
        let _ = hold.grid();
        hold.into_mesh()
    }
}
