//! The buckets of a table that no thread shares any more.

ghost use Rattle.std.specs.Prelude.{◌≡◌, ℕ, ◌<◌, None, false, length, slice_index_or};
ghost use Rattle.std.specs.Mem.Slots.{slots_items, slots_filled, slots_len, IsFull};
ghost use Rattle.cell_store.specs.Buckets.{bucket_at};
ghost use Rattle.claim_table.specs.Homing.{AllHome};

use crate::slot::Slot;
use atomic_table::Closed;
use cell_store::Hold;
use std::alloc::Global;

/// Takes all buckets of a closed table in hand. They are to be in its slots, and the hold is to be empty.
pub fn gather(closed: &mut Closed<Option<Slot>, Global>, hold: &mut Hold)
    requires slots { (slots_len closed.old.slots ≡ length hold.old.places) × IsFull closed.old.slots }
    requires home { AllHome hold.old.grid (slots_items closed.old.slots) }
    requires none { (b : ℕ) → bucket_at hold.old.places b ≡ None }
    ensures free { (k : ℕ) → k < slots_len closed.new.slots →
        slice_index_or (slots_filled closed.new.slots) k false ≡ false }
    ensures grid { hold.new.grid ≡ hold.old.grid }
    ensures places { hold.new.places ≡ slots_items closed.old.slots }
{
    for b in 0..hold.grid().count() {
        match closed.take(b as usize) {
            Some(slot) => hold.put(b, slot.into_bucket()),
            None => unreachable!(),
        }
    }
}
