// A full leaf split as planned. F pairs are never stored: the stored pairs are cut where the plan says, and the new pair is put into its half
// afterwards. What is left in between is an index too.
// On parts, not on a struct with the index as its fact: that fact must hold after each write, so what writes twice would stay on parts under it.
#![tactic(auto)]

ghost use Rattle.split.specs.Splits.{CanCutStored, CanShortenHalf, CanSplit, CanWriteSeparator, CutStored, SeparatorWritten, ShortenedHalf, SplitLeaf};

use directory::cut_leaf;
use judge::{Half, Plan};
use layout::Header;
use layout::lent::View;
use leaf_edit::shorten_keys_after_split;
use moves::copy_into;
use numbers::lowest_free;
use pieces::write_pieces;
use room::make_room;
use route::{leaf_of, low_key, upper_key};
use spots::{Spot, read_spot};
use words::{LeafNo, LowKey};

// L5: the separator is the front of the smallest right key, which is the new key or a stored one. The whole key is written; what lies behind
// the separator is not used.
fn write_separator(v: &View<'_>, key: &[u8], p: Plan, out: &mut [u8])
    requires { CanWriteSeparator v.now.header v.now.dir.now v.now.slots.now v.now.arena.now key.now p out.old }
    ensures { SeparatorWritten v.now.header v.now.dir.now v.now.slots.now v.now.arena.now key.now p out.old out.new }
{
    if p.half == Half::Right(0) {
        copy_into(out, 0, key);
        return;
    }
    let x = read_spot(
        v,
        Spot {
            leaf: p.leaf,
            slot: p.cut,
        },
    );
    let low = x.low.0;
    let start = x.slot.offset.0;
    let low_end = low + x.prefix;
    let end = start + x.slot.suffix;
    write_pieces(&v.arena[low..low_end], &v.arena[start..end], out)
}

// The pairs of the j-th leaf from its i-th slot on are the leaf `free`'s, with the low key `low`, which is written between the halves.
fn cut_stored(
    h: Header,
    dir: &mut [u32],
    slots: &mut [u64],
    arena: &mut [u8],
    j: usize,
    i: usize,
    free: LeafNo,
    low: &[u8],
)
    requires { CanCutStored h dir.old slots.old arena.old j i free.0 low.now }
    ensures { CutStored h dir.old slots.old arena.old j i free.0 low.now dir.new slots.new arena.new }
{
    let at = make_room(dir, slots, arena, h.fanout, h.leaves, j, i, low.len());
    copy_into(arena, at.0, low);
    let key = LowKey {
        offset: at,
        length: low.len(),
    };
    cut_leaf(dir, slots, h.fanout, h.leaves, j, i, free, key);
}

// L6: the j-th leaf, stored behind a prefix of `old` bytes, gets the prefix length of L2.
fn shorten_half(h: Header, dir: &[u32], slots: &mut [u64], arena: &[u8], j: usize, old: usize)
    requires { CanShortenHalf h dir.now slots.old arena.now j old }
    ensures { ShortenedHalf h dir.now slots.old arena.now j old slots.new }
{
    let d = dir[j];
    let low = low_key(h.fanout, slots, d);
    let upper = upper_key(h, dir, slots, j);
    shorten_keys_after_split(slots, arena, h.fanout, d, old, low, upper);
}

// The separator is copied out of the arena first: bytes move when room is made for it.
pub fn split_leaf(
    h: Header,
    dir: &mut [u32],
    slots: &mut [u64],
    arena: &mut [u8],
    key: &[u8],
    p: Plan,
) -> Header
    requires { CanSplit h dir.old slots.old arena.old key.now p }
    ensures { SplitLeaf h dir.old slots.old arena.old key.now p result dir.new slots.new arena.new }
{
    let view = View::new(h, dir, slots, arena);
    let mut separator = [0u8; 512];
    write_separator(&view, key, p, &mut separator);
    let old = leaf_of(&view, p.leaf).prefix_length;
    let free = lowest_free(dir, h.leaves);
    cut_stored(
        h,
        dir,
        slots,
        arena,
        p.leaf,
        p.cut,
        free,
        &separator[..p.separator],
    );
    let r = Header {
        leaves: h.leaves + 1,
        charge: h.charge + p.separator,
        ..h
    };
    shorten_half(r, dir, slots, arena, p.leaf, old);
    shorten_half(r, dir, slots, arena, p.leaf + 1, old);
    r
}
