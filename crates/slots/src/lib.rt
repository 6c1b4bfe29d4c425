// The slot map of document 01: the slot words of one leaf edited. A pair taken out, put in, its value replaced; keys shortened after a split.
// (On parts, and no type with the index as its fact: these functions run in the middle of a change, where the buffers hold none.)
#![tactic(auto)]

ghost use Rattle.std.specs.Prelude.{◌≡◌, ◌∷◌, ◌++◌, ◌+◌, ◌^◌, ◌≤◌, ◌<◌, length};
ghost use Rattle.lists.specs.Part.{part, put};
ghost use Rattle.slots.specs.Edits.{PutIn, Puts, Replaced, Replaces, Shortened, Shortens, TakenOut, Takes, slot_of};

use moves::{copy_into, move_within, raise};
use words::{Offset, Slot, SlotNo, first_slot, leaf_number, pack_directory, pack_slot, pair_count};

// One more in a word's offset, one less in its suffix length.
const SHIFT_UNIT: u64 = 0xF_FF00_0000;

// Where the i-th slot word of the directory word's leaf stands.
fn slot_at(fanout: usize, d: u32, i: usize) -> SlotNo
    requires { slot_of fanout d i < 2 ^ 64 }
    ensures { result.0 ≡ slot_of fanout d i }
{
    SlotNo(first_slot(fanout, leaf_number(d)).0 + i)
}

// The i-th pair taken out of the leaf at the directory's place j. Its bytes stay, a hole in the arena.
pub fn take_out(dir: &mut [u32], slots: &mut [u64], fanout: usize, j: usize, i: usize)
    requires { Takes fanout dir.old slots.old j i }
    ensures { TakenOut fanout dir.old slots.old j i dir.new slots.new }
{
    let d = dir[j];
    let leaf = leaf_number(d);
    let count = pair_count(d);
    let at = slot_at(fanout, d, i).0;
    move_within(slots, at + 1, count - (i + 1), at);
    dir[j] = pack_directory(leaf, count - 1);
}

// L6: the first g bytes of every suffix go to the leaf's prefix.
pub fn shorten_keys(slots: &mut [u64], fanout: usize, d: u32, g: usize)
    requires { Shortens fanout slots.old d g }
    ensures { Shortened fanout slots.old d g slots.new }
{
    let first = slot_at(fanout, d, 0);
    raise(slots, first.0, pair_count(d), g as u64 * SHIFT_UNIT);
}

// The i-th pair's value replaced by one that is not longer, in its place.
pub fn replace_value(
    slots: &mut [u64],
    arena: &mut [u8],
    fanout: usize,
    d: u32,
    i: usize,
    value: &[u8],
)
    requires { Replaces fanout slots.old arena.old d i value.now }
    ensures { Replaced fanout slots.old arena.old d i value.now slots.new arena.new }
{
    let at = slot_at(fanout, d, i).0;
    let s = Slot::from(slots[at]);
    copy_into(arena, s.offset.0 + s.suffix, value);
    slots[at] = pack_slot(Slot {
        value: value.len(),
        ..s
    });
}

// Suffix and value written behind one another.
fn write_pair(arena: &mut [u8], at: Offset, suffix: &[u8], value: &[u8])
    requires { at.0 + (length suffix.now + length value.now) ≤ length arena.old }
    ensures { arena.new ≡ put arena.old at.0 (suffix.now ++ value.now) }
{
    copy_into(arena, at.0, suffix);
    copy_into(arena, at.0 + suffix.len(), value);
}

// The n words from a place on up by one, and w written there.
fn open_word(slots: &mut [u64], at: SlotNo, n: usize, w: u64)
    requires { at.0 + n + 1 ≤ length slots.old }
    ensures { slots.new ≡ put slots.old at.0 (w ∷ part slots.old at.0 n) }
{
    move_within(slots, at.0, n, at.0 + 1);
    slots[at.0] = w;
}

// A pair put in before the i-th of the leaf at the directory's place j, its bytes written into a gap of the arena.
pub fn put_in(
    dir: &mut [u32],
    slots: &mut [u64],
    arena: &mut [u8],
    fanout: usize,
    j: usize,
    i: usize,
    at: Offset,
    suffix: &[u8],
    value: &[u8],
)
    requires { Puts fanout dir.old slots.old arena.old j i at.0 suffix.now value.now }
    ensures { PutIn fanout dir.old slots.old arena.old j i at.0 suffix.now value.now dir.new slots.new arena.new }
{
    let d = dir[j];
    let leaf = leaf_number(d);
    let count = pair_count(d);
    let slot = slot_at(fanout, d, i);
    let w = pack_slot(Slot {
        offset: at,
        suffix: suffix.len(),
        value: value.len(),
    });
    write_pair(arena, at, suffix, value);
    open_word(slots, slot, count - i, w);
    dir[j] = pack_directory(leaf, count + 1);
}
