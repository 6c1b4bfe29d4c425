// L7: a leaf takes over its right neighbour's pairs, whose suffixes first regain the bytes that the shorter prefix no longer covers.
// (On parts, and no type with the index as its fact: these functions run in the middle of a change, where the buffers hold none.)
#![tactic(auto)]

ghost use Rattle.std.specs.Prelude.{◌-◌, ◌≤◌};
ghost use Rattle.regrow.specs.Merge.{CanMerge, Merged, low_from};
ghost use Rattle.regrow.specs.Regrow.{CanRegain, CanRegrow, Regained, Regrown};

use directory::take_over;
use moves::move_within;
use words::{
    LowKey, Offset, Slot, SlotNo, first_slot, leaf_number, low_key_slot, pack_slot, pair_count,
};

// The i-th pair of a leaf, whose word stands at a place: the pairs before it grow by g bytes each, its own suffix by the g bytes at `from`.
fn regain(slots: &mut [u64], arena: &mut [u8], at: SlotNo, i: usize, g: usize, from: Offset)
    requires { CanRegain slots.old arena.old at.0 i g from.0 }
    ensures { Regained slots.old arena.old at.0 i g from.0 slots.new arena.new }
{
    let old = Slot::from(slots[at.0]);
    let to = old.offset.0 + i * g;
    move_within(arena, old.offset.0, old.suffix + old.value, to + g);
    move_within(arena, from.0, g, to);
    slots[at.0] = pack_slot(Slot {
        offset: Offset(to),
        suffix: old.suffix + g,
        ..old
    });
}

// The prefix of the directory word d's leaf g bytes shorter: each suffix regains the g bytes that stand at `from`, in the leaf's low key. From the
// back, for a pair that goes up may reach over the next.
pub fn regrow(slots: &mut [u64], arena: &mut [u8], fanout: usize, d: u32, g: usize, from: Offset)
    requires { CanRegrow fanout slots.old arena.old d g from.0 }
    ensures { Regrown fanout slots.old arena.old d g from.0 slots.new arena.new }
{
    let first = first_slot(fanout, leaf_number(d)).0;
    for i in (0..pair_count(d)).rev() {
        regain(slots, arena, SlotNo(first + i), i, g, from);
    }
}

// Its prefix of q bytes down to the first `kept`.
fn shorten_prefix(slots: &mut [u64], arena: &mut [u8], fanout: usize, d: u32, q: usize, kept: usize)
    requires { (kept ≤ q) × CanRegrow fanout slots.old arena.old d (q - kept) (low_from fanout slots.old d kept) }
    ensures { Regrown fanout slots.old arena.old d (q - kept) (low_from fanout slots.old d kept) slots.new arena.new }
{
    let is_shorter = kept < q;
    if is_shorter {
        let at = low_key_slot(fanout, leaf_number(d)).0;
        let low = LowKey::from(slots[at]);
        let from = Offset(low.offset.0 + kept);
        regrow(slots, arena, fanout, d, q - kept, from);
    }
}

// L7: the j-th leaf, which is empty, takes over the pairs of the next. Their prefix of q bytes goes down to the first `kept`, which are this leaf's too.
pub fn merge_from(
    dir: &mut [u32],
    slots: &mut [u64],
    arena: &mut [u8],
    fanout: usize,
    leaves: usize,
    j: usize,
    q: usize,
    kept: usize,
)
    requires { CanMerge fanout leaves dir.old slots.old arena.old j q kept }
    ensures { Merged fanout leaves dir.old slots.old arena.old j q kept dir.new slots.new arena.new }
{
    shorten_prefix(slots, arena, fanout, dir[j + 1], q, kept);
    take_over(dir, slots, fanout, leaves, j)
}
