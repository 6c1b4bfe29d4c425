// Room made in the arena at a place: where it isn't there, the parts before it are moved down tight, the others up tight. The leaf list stays.
// A leaf's parts are counted from its low key on: the low key is the 0-th, the i-th pair the (i + 1)-th.
// (On parts, and no type with the index as its fact: these functions run in the middle of a change, where the buffers hold none.)
#![tactic(auto)]

ghost use Rattle.std.specs.Prelude.{◌≡◌};
ghost use Rattle.room.specs.Leaf.{CanLeafDown, CanLeafUp, LeafDown, LeafUp};
ghost use Rattle.room.specs.Pack.{CanPackDown, CanPackUp, PackDown, PackUp};
ghost use Rattle.room.specs.Parts.{CanPlacePart, CanSizePart, CanSlidePart, PartSize, SlidPart, part_end, part_slot, part_word};
ghost use Rattle.room.specs.Rooms.{CanMakeRoom, MadeRoom, PackedAround, RoomPlace, next_start};
ghost use Rattle.words.specs.Words.{Unpacked};

use arena::{slide_low, slide_pair};
use words::{Offset, Slot, SlotNo, first_slot, leaf_number, low_key_slot, pair_count};

// Where the word of the k-th part of the leaf of the directory word d stands.
fn part_slot(fanout: usize, d: u32, k: usize) -> SlotNo
    requires { CanPlacePart fanout d k }
    ensures { result.0 ≡ part_slot fanout d k }
{
    let leaf = leaf_number(d);
    if k == 0 {
        low_key_slot(fanout, leaf)
    } else {
        SlotNo(first_slot(fanout, leaf).0 + (k - 1))
    }
}

// What the word of that part holds.
fn part_at(slots: &[u64], fanout: usize, d: u32, k: usize) -> Slot
    requires { CanSizePart fanout slots.now d k }
    ensures { Unpacked (part_word fanout slots.now d k) result }
{
    Slot::from(slots[part_slot(fanout, d, k).0])
}

// How many bytes that part has.
fn part_size(slots: &[u64], fanout: usize, d: u32, k: usize) -> usize
    requires { CanSizePart fanout slots.now d k }
    ensures { PartSize fanout slots.now d k result }
{
    let part = part_at(slots, fanout, d, k);
    part.suffix + part.value
}

// Where it ends.
fn part_end(slots: &[u64], fanout: usize, d: u32, k: usize) -> usize
    requires { CanSizePart fanout slots.now d k }
    ensures { result ≡ part_end (part_word fanout slots.now d k) }
{
    let part = part_at(slots, fanout, d, k);
    part.offset.0 + (part.suffix + part.value)
}

// That part moved to `to`.
fn slide_part(slots: &mut [u64], arena: &mut [u8], fanout: usize, d: u32, k: usize, to: Offset)
    requires { CanSlidePart fanout slots.old arena.old d k to.0 }
    ensures { SlidPart fanout slots.old arena.old d k to.0 slots.new arena.new }
{
    if k == 0 {
        slide_low(slots, arena, fanout, d, to)
    } else {
        slide_pair(slots, arena, fanout, d, k - 1, to)
    }
}

// The first n parts of that leaf moved down, one behind the other from `start` on; and where they end.
fn leaf_down(
    slots: &mut [u64],
    arena: &mut [u8],
    fanout: usize,
    d: u32,
    n: usize,
    start: Offset,
) -> Offset
    requires { CanLeafDown fanout slots.old arena.old d n start.0 }
    ensures { LeafDown fanout slots.old arena.old d start.0 slots.new arena.new n result.0 }
{
    let mut end = start.0;
    for k in 0..n {
        let size = part_size(slots, fanout, d, k);
        slide_part(slots, arena, fanout, d, k, Offset(end));
        end += size;
    }
    Offset(end)
}

// Its parts from the n-th on moved up, one before the other from `top` on down; and where they start.
fn leaf_up(
    slots: &mut [u64],
    arena: &mut [u8],
    fanout: usize,
    d: u32,
    n: usize,
    top: Offset,
) -> Offset
    requires { CanLeafUp fanout slots.old arena.old d n top.0 }
    ensures { LeafUp fanout slots.old arena.old d top.0 slots.new arena.new n result.0 }
{
    let mut start = top.0;
    for k in (n..pair_count(d) + 1).rev() {
        let size = part_size(slots, fanout, d, k);
        start -= size;
        slide_part(slots, arena, fanout, d, k, Offset(start));
    }
    Offset(start)
}

// The parts of the first j leaves moved down from the arena's start on; and where they end.
fn pack_down(dir: &[u32], slots: &mut [u64], arena: &mut [u8], fanout: usize, j: usize) -> Offset
    requires { CanPackDown fanout dir.now slots.old arena.old j }
    ensures { PackDown fanout dir.now slots.old arena.old slots.new arena.new j result.0 }
{
    let mut end = Offset(0);
    for &d in &dir[..j] {
        end = leaf_down(slots, arena, fanout, d, pair_count(d) + 1, end);
    }
    end
}

// The parts of the leaves from the j-th on moved up to the arena's end; and where they start.
fn pack_up(
    dir: &[u32],
    slots: &mut [u64],
    arena: &mut [u8],
    fanout: usize,
    leaves: usize,
    j: usize,
) -> Offset
    requires { CanPackUp fanout leaves dir.now slots.old arena.old j }
    ensures { PackUp fanout leaves dir.now slots.old arena.old slots.new arena.new j result.0 }
{
    let mut start = Offset(arena.len());
    for i in (j..leaves).rev() {
        start = leaf_up(slots, arena, fanout, dir[i], 0, start);
    }
    start
}

// Where the part behind the i-th one of the leaf at the directory's place j starts: that leaf's next, or the next leaf's first. Where there is
// none, the arena's end.
fn next_start(
    dir: &[u32],
    slots: &[u64],
    arena: &[u8],
    fanout: usize,
    leaves: usize,
    j: usize,
    i: usize,
) -> usize
    requires { RoomPlace fanout leaves dir.now slots.now arena.now j i }
    ensures { result ≡ next_start fanout leaves dir.now slots.now arena.now j i }
{
    let d = dir[j];
    if i < pair_count(d) {
        part_at(slots, fanout, d, i + 1).offset.0
    } else if j + 1 < leaves {
        part_at(slots, fanout, dir[j + 1], 0).offset.0
    } else {
        arena.len()
    }
}

// All parts packed around that place, those up to the i-th one down and the others up; and where the first end.
fn pack_around(
    dir: &[u32],
    slots: &mut [u64],
    arena: &mut [u8],
    fanout: usize,
    leaves: usize,
    j: usize,
    i: usize,
) -> Offset
    requires { RoomPlace fanout leaves dir.now slots.old arena.old j i }
    ensures { PackedAround fanout leaves dir.now slots.old arena.old j i result.0 slots.new arena.new }
{
    let d = dir[j];
    let before = pack_down(dir, slots, arena, fanout, j);
    let place = leaf_down(slots, arena, fanout, d, i + 1, before);
    let behind = pack_up(dir, slots, arena, fanout, leaves, j + 1);
    leaf_up(slots, arena, fanout, d, i + 1, behind);
    place
}

// Room for `need` bytes between the parts before the i-th slot of the leaf at the directory's place j and those from it on. Where it is there
// already, nothing moves.
pub fn make_room(
    dir: &[u32],
    slots: &mut [u64],
    arena: &mut [u8],
    fanout: usize,
    leaves: usize,
    j: usize,
    i: usize,
    need: usize,
) -> Offset
    requires { CanMakeRoom fanout leaves dir.now slots.old arena.old j i need }
    ensures { MadeRoom fanout leaves dir.now slots.old arena.old j i need result.0 slots.new arena.new }
{
    let end = part_end(slots, fanout, dir[j], i);
    let next = next_start(dir, slots, arena, fanout, leaves, j, i);
    if end + need <= next {
        return Offset(end);
    }
    pack_around(dir, slots, arena, fanout, leaves, j, i)
}
