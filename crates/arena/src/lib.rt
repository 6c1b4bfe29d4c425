// One part of the arena slid between its two neighbours: the leaf list stays.
#![tactic(auto)]

ghost use Rattle.arena.specs.Slides.{CanSlidePair, SlidPair, CanSlideLow, SlidLow};

use moves::move_within;
use words::{LowKey, Offset, Slot, first_slot, leaf_number, low_key_slot, pack_low_key, pack_slot};

// The i-th pair of the leaf of the directory word d, its suffix and value, moved to `to`. The two places may overlap.
pub fn slide_pair(slots: &mut [u64], arena: &mut [u8], fanout: usize, d: u32, i: usize, to: Offset)
    requires { CanSlidePair fanout slots.old arena.old d i to.0 }
    ensures { SlidPair fanout slots.old arena.old d i to.0 slots.new arena.new }
{
    let at = first_slot(fanout, leaf_number(d)).0 + i;
    let old = Slot::from(slots[at]);
    slots[at] = pack_slot(Slot { offset: to, ..old });
    move_within(arena, old.offset.0, old.suffix + old.value, to.0)
}

// The low key of that leaf.
pub fn slide_low(slots: &mut [u64], arena: &mut [u8], fanout: usize, d: u32, to: Offset)
    requires { CanSlideLow fanout slots.old arena.old d to.0 }
    ensures { SlidLow fanout slots.old arena.old d to.0 slots.new arena.new }
{
    let at = low_key_slot(fanout, leaf_number(d)).0;
    let old = LowKey::from(slots[at]);
    slots[at] = pack_low_key(LowKey { offset: to, ..old });
    move_within(arena, old.offset.0, old.length, to.0)
}
