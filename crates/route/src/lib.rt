// Which leaf owns a key (L1), and one leaf of the directory read: its low key, its upper key, its prefix length (L2).
#![tactic(auto)]

ghost use Rattle.std.specs.Prelude.{◌≡◌, ◌<◌, get_or, length};
ghost use Rattle.lists.specs.Exact.{Exact};
ghost use Rattle.order.specs.Bytes.{◌≼◌};
ghost use Rattle.words.specs.Words.{LowKeyUnpacked, low_key_slot, word_leaf};
ghost use Rattle.model.specs.Leaves.{owner};
ghost use Rattle.layout.specs.Viewed.{leaves_of};
ghost use Rattle.route.specs.Routes.{Directed, LeafIs, UpperRead, leaf_at};

use layout::Header;
use layout::lent::View;
use leaf::{Leaf, prefix_length};
use order::compare;
use std::cmp::Ordering;
use words::{LowKey, leaf_number, low_key_slot, pair_count};

// A leaf's low key, by its directory word.
pub fn low_key(fanout: usize, slots: &[u64], d: u32) -> LowKey
    requires { (0 < fanout) × (low_key_slot fanout (word_leaf d) < length slots.now) }
    ensures { LowKeyUnpacked (get_or slots.now (low_key_slot fanout (word_leaf d)) 0) result }
{
    LowKey::from(slots[low_key_slot(fanout, leaf_number(d)).0])
}

// The j-th leaf's upper key is the next leaf's low key; the last leaf has none.
pub fn upper_key(h: Header, dir: &[u32], slots: &[u64], j: usize) -> Option<LowKey>
    requires { Directed h dir.now slots.now × (j < h.leaves) }
    ensures { UpperRead h dir.now slots.now j result }
{
    let next = j + 1;
    if h.leaves <= next {
        return None;
    }
    Some(low_key(h.fanout, slots, dir[next]))
}

// The j-th leaf: its number, fanout, pairs and prefix length (L2).
pub fn leaf_of(v: &View<'_>, j: usize) -> Leaf
    requires { j < v.now.header.leaves }
    ensures { LeafIs v.now.header v.now.dir.now (leaves_of v.now) j result }
{
    let d = v.dir[j];
    let low = low_key(v.header.fanout, v.slots, d);
    let upper = upper_key(v.header, v.dir, v.slots, j);
    Leaf {
        number: leaf_number(d),
        fanout: v.header.fanout,
        pairs: pair_count(d),
        prefix_length: prefix_length(v.arena, low, upper),
    }
}

// Whether a leaf's low key is not above the key: a key equal to a separator goes right (L1).
fn reaches(v: &View<'_>, j: usize, key: &[u8]) -> bool
    requires { j < v.now.header.leaves }
    ensures { Exact result ((leaf_at (leaves_of v.now) j).low ≼ key.now) }
{
    let low = low_key(v.header.fanout, v.slots, v.dir[j]);
    let start = low.offset.0;
    // By a match and not by `is_le`, so that each of the three answers is a goal of its own.
    match compare(&v.arena[start..start + low.length], key) {
        Ordering::Less => true,
        Ordering::Equal => true,
        Ordering::Greater => false,
    }
}

// L1: which leaf owns the key, a place in the directory: the last leaf whose low key is not above it, by halving.
pub fn owner(v: &View<'_>, key: &[u8]) -> usize
    ensures { result ≡ owner key.now (leaves_of v.now) }
{
    let mut low = 0;
    let mut high = v.header.leaves;
    // By hand: `partition_point` wants a test of any word, and a low key can be read only by a word of the directory.
    while 1 < high - low {
        let middle = low + (high - low) / 2;
        if reaches(v, middle, key) {
            low = middle;
        } else {
            high = middle;
        }
    }
    low
}
