// A spot in the index: a leaf's place in the directory and a slot of that leaf. Where a key stands, the next spot that has a pair, and the pair
// there.
#![tactic(auto)]

ghost use Rattle.std.specs.Prelude.{◌≤◌, length};
ghost use Rattle.layout.specs.Viewed.{leaves_of};
ghost use Rattle.spots.specs.KeySpots.{Stands};
ghost use Rattle.spots.specs.Spots.{NextRead, PairAt, SpotIn};

use layout::lent::View;
use leaf::search::find;
use route::{leaf_of, low_key, owner};
use words::{Offset, Slot, first_slot, leaf_number, pair_count};

#[derive(Debug, Clone, Copy, PartialEq, Eq)]
pub struct Spot {
    pub leaf: usize,
    pub slot: usize,
}

// A pair in the arena: its leaf's prefix at the front of the low key, then its own suffix with the value right behind.
#[derive(Clone, Copy)]
pub struct Pieced {
    pub low: Offset,
    pub prefix: usize,
    pub slot: Slot,
}

// The key is routed to its leaf first, so it begins with that leaf's prefix, and only its part from there on is sought.
pub fn seek(v: &View<'_>, key: &[u8]) -> Result<Spot, Spot>
    ensures { Stands key.now (leaves_of v.now) result }
{
    let leaf = owner(v, key);
    let read = leaf_of(v, leaf);
    match find(v.slots, v.arena, read, &key[read.prefix_length..]) {
        Ok(slot) => Ok(Spot { leaf, slot }),
        Err(slot) => Err(Spot { leaf, slot }),
    }
}

// Leaves without a pair from the spot on are passed over, however many they are.
pub fn next_spot(leaves: usize, dir: &[u32], s: Spot) -> Option<Spot>
    requires { leaves ≤ length dir.now }
    ensures { NextRead leaves dir.now s result }
{
    let mut slot = s.slot;
    for leaf in s.leaf..leaves {
        if slot < pair_count(dir[leaf]) {
            return Some(Spot { leaf, slot });
        }
        slot = 0;
    }
    None
}

pub fn read_spot(v: &View<'_>, t: Spot) -> Pieced
    requires { SpotIn v.now.header v.now.dir.now v.now.slots.now v.now.arena.now t }
    ensures { PairAt v.now t result }
{
    let d = v.dir[t.leaf];
    let first = first_slot(v.header.fanout, leaf_number(d));
    Pieced {
        low: low_key(v.header.fanout, v.slots, d).offset,
        prefix: leaf_of(v, t.leaf).prefix_length,
        slot: Slot::from(v.slots[first.0 + t.slot]),
    }
}
