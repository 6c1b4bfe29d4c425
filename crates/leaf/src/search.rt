// The search in a leaf's slots.
ghost use Rattle.std.specs.Prelude.{◌≡◌, ◌<◌, get_or, length};
ghost use Rattle.order.specs.Compared.{Compared};
ghost use Rattle.model.specs.Place.{place};
ghost use Rattle.layout.specs.Buffers.{suffix_at};
ghost use Rattle.layout.specs.LaysParts.{WordInside};
ghost use Rattle.leaf.specs.Finds.{Suffixes, find_told, leaf_slots, suffixes_of};

use crate::Leaf;
use order::compare;
use std::cmp::Ordering;
use words::{Slot, SlotNo, first_slot};

// How a suffix stands to that of the slot word at i.
fn compare_suffix(slots: &[u64], arena: &[u8], i: SlotNo, suffix: &[u8]) -> Ordering
    requires { (i.0 < length slots.now) × WordInside arena.now (get_or slots.now i.0 0) }
    ensures { Compared suffix.now (suffix_at arena.now (get_or slots.now i.0 0)) result }
{
    let slot = Slot::from(slots[i.0]);
    let start = slot.offset.0;
    compare(suffix, &arena[start..start + slot.suffix])
}

// The key's part from the prefix length on, sought among the leaf's suffixes by a walk from the front.
#[tactic(auto, using(crate::proofs::Steps::found_at, crate::proofs::Steps::found_end, crate::proofs::Steps::found_gap, crate::proofs::Steps::passed_next, crate::proofs::Steps::passed_none, crate::proofs::Steps::slot_inside))]
pub fn find(slots: &[u64], arena: &[u8], leaf: Leaf, suffix: &[u8]) -> Result<usize, usize>
    requires { Suffixes slots.now arena.now leaf }
    ensures { result ≡ find_told (place suffix.now (suffixes_of arena.now (leaf_slots slots.now leaf))) }
{
    let first = first_slot(leaf.fanout, leaf.number);
    for i in 0..leaf.pairs {
        match compare_suffix(slots, arena, SlotNo(first.0 + i), suffix) {
            Ordering::Less => return Err(i),
            Ordering::Equal => return Ok(i),
            Ordering::Greater => {}
        }
    }
    Err(leaf.pairs)
}
