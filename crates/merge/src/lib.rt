// L7 on an index: any empty leaf that has a right neighbour takes its pairs and its upper key; the neighbour is freed.
// On parts, not on a struct with the index as its fact: that fact must hold after each write, so what writes twice would stay on parts under it.
#![tactic(auto)]

ghost use Rattle.std.specs.Prelude.{◌<◌, suc, ◌≡◌};
ghost use Rattle.layout.specs.Viewed.{leaves_of};
ghost use Rattle.merge.specs.Behind.{CanRoomBehind, RoomBehind, taken_prefix};
ghost use Rattle.merge.specs.Merges.{CanMergeLeaf, MergedLeaf};

use layout::Header;
use layout::lent::View;
use leaf::prefix_length;
use regrow::merge_from;
use room::make_room;
use route::{leaf_of, low_key, upper_key};

// The prefix length of the j-th leaf with the next one's upper key (L2).
fn taken_prefix(v: &View<'_>, j: usize) -> usize
    requires { suc j < v.now.header.leaves }
    ensures { result ≡ taken_prefix (leaves_of v.now) j }
{
    let low = low_key(v.header.fanout, v.slots, v.dir[j]);
    let upper = upper_key(v.header, v.dir, v.slots, j + 1);
    prefix_length(v.arena, low, upper)
}

// Behind the last pair of the j-th leaf, room for g bytes to each of its pairs. Nothing is moved where none is needed.
fn room_behind(
    h: Header,
    dir: &[u32],
    slots: &mut [u64],
    arena: &mut [u8],
    j: usize,
    pairs: usize,
    g: usize,
)
    requires { CanRoomBehind h dir.now slots.old arena.old j pairs g }
    ensures { RoomBehind h dir.now slots.old arena.old j pairs g slots.new arena.new }
{
    if 0 < g {
        make_room(dir, slots, arena, h.fanout, h.leaves, j, pairs, pairs * g);
    }
}

pub fn merge_leaf(
    h: Header,
    dir: &mut [u32],
    slots: &mut [u64],
    arena: &mut [u8],
    j: usize,
) -> Header
    requires { CanMergeLeaf h dir.old slots.old arena.old j }
    ensures { MergedLeaf h dir.old slots.old arena.old j result dir.new slots.new arena.new }
{
    let next = j + 1;
    let view = View::new(h, dir, slots, arena);
    let neighbour = leaf_of(&view, next);
    let kept = taken_prefix(&view, j);
    let freed = low_key(h.fanout, slots, dir[next]);
    let old = neighbour.prefix_length;
    room_behind(h, dir, slots, arena, next, neighbour.pairs, old - kept);
    merge_from(dir, slots, arena, h.fanout, h.leaves, j, old, kept);
    Header {
        leaves: h.leaves - 1,
        charge: h.charge - freed.length,
        ..h
    }
}
