// One pair of an index changed in the leaf that owns its key: put in, taken out, its value replaced. Each leaves an index, and its header.
// On parts, not on a struct with the index as its fact: that fact must hold after each write, so what writes twice would stay on parts under it.
#![tactic(auto)]

ghost use Rattle.pair_edit.specs.PairEdits.{CanInsert, CanRemove, CanReplace, InsertedPair, RemovedPair, ReplacedPair};

use layout::Header;
use layout::lent::View;
use room::make_room;
use route::leaf_of;
use slots::{put_in, replace_value, take_out};
use spots::{Spot, read_spot};

// A new pair before the spot's slot. A slot stores the suffix of the key from the prefix length on (L2).
pub fn insert_pair(
    h: Header,
    dir: &mut [u32],
    slots: &mut [u64],
    arena: &mut [u8],
    t: Spot,
    key: &[u8],
    value: &[u8],
) -> Header
    requires { CanInsert h dir.old slots.old arena.old key.now value.now t }
    ensures { InsertedPair h dir.old slots.old arena.old key.now value.now t result dir.new slots.new arena.new }
{
    let leaf = leaf_of(&View::new(h, dir, slots, arena), t.leaf);
    let suffix = &key[leaf.prefix_length..];
    let need = suffix.len() + value.len();
    let at = make_room(dir, slots, arena, h.fanout, h.leaves, t.leaf, t.slot, need);
    put_in(
        dir, slots, arena, h.fanout, t.leaf, t.slot, at, suffix, value,
    );
    Header {
        pairs: h.pairs + 1,
        charge: h.charge + key.len() + value.len(),
        ..h
    }
}

// The pair at the spot taken out. Its leaf may stay empty: no leaf is merged here.
pub fn remove_pair(h: Header, dir: &mut [u32], slots: &mut [u64], arena: &[u8], t: Spot) -> Header
    requires { CanRemove h dir.old slots.old arena.now t }
    ensures { RemovedPair h dir.old slots.old arena.now t result dir.new slots.new }
{
    let x = read_spot(&View::new(h, dir, slots, arena), t);
    let size = x.prefix + x.slot.suffix + x.slot.value;
    take_out(dir, slots, h.fanout, t.leaf, t.slot);
    Header {
        pairs: h.pairs - 1,
        charge: h.charge - size,
        ..h
    }
}

// The value at the spot replaced, in its place, by one that is not longer.
pub fn replace_pair(
    h: Header,
    dir: &[u32],
    slots: &mut [u64],
    arena: &mut [u8],
    t: Spot,
    value: &[u8],
) -> Header
    requires { CanReplace h dir.now slots.old arena.old value.now t }
    ensures { ReplacedPair h dir.now slots.old arena.old value.now t result slots.new arena.new }
{
    let x = read_spot(&View::new(h, dir, slots, arena), t);
    replace_value(slots, arena, h.fanout, dir[t.leaf], t.slot, value);
    Header {
        charge: h.charge - x.slot.value + value.len(),
        ..h
    }
}
