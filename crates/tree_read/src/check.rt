// The test of W: one pass over the directory and each leaf's words, with a running end in the arena and no scratch memory. Nothing is
// read before its place is tested, and no sum can overflow, whatever header and buffers come in.
// (Header, directory, slots and arena stay apart in the parameters: document 01 lends them so, to callers in C and Rust too.)
ghost use Rattle.std.specs.Prelude.{◌≡◌, List, ℕ, ◌+◌, ◌-◌, ◌*◌, ◌^◌, ◌≤◌, ◌<◌, length, get_or, take, drop};
ghost use Rattle.lists.specs.Exact.{Exact};
ghost use Rattle.lists.specs.Part.{part};
ghost use Rattle.order.specs.Bytes.{◌≺◌};
ghost use Rattle.model.specs.Leaves.{Under};
ghost use Rattle.layout.specs.Buffers.{suffix_at};
ghost use Rattle.words.specs.Words.{word_suffix, word_value};
ghost use Rattle.layout.specs.Lays.{W};
ghost use Rattle.leaf.specs.Keys.{KeyAt, key_at, UpperAt, upper_at, upper_part};
ghost use Rattle.tree_read.specs.Check.{WordOk, word_end, NotEmpty};
ghost use Rattle.tree_read.specs.CheckCode.{Shaped, LowWordOk, LowRead, Follows, NextAt, Rested, RestRead, FirstOk, PairsAt, PairsRead, LeafAt, LeafRead, NextRead, StepAt, StepRead, LeavesAt, LeavesRead};

use crate::sizes::sizes_met;
use layout::Header;
use leaf::{Leaf, prefix_length};
use order::compare;
use words::{
    LowKey, Offset, Slot, SlotNo, first_slot, is_low_key, leaf_number, low_key_slot, pair_count,
};

// Where a leaf's last part ends, and its charge.
#[derive(Debug, Clone, Copy, PartialEq, Eq)]
pub struct Sum {
    pub end: usize,
    pub charge: usize,
}

// What the leaves so far add up to, and the low key of the leaf that comes next.
#[derive(Debug, Clone, Copy, PartialEq, Eq)]
pub struct State {
    pub low: LowKey,
    pub end: usize,
    pub pairs: usize,
    pub charge: usize,
}

// Whether a word is a low key's, within limits and inside the arena.
fn low_word_ok(w: u64, top: usize) -> bool
    ensures { Exact result (LowWordOk top w) }
{
    if !is_low_key(w) {
        return false;
    }
    let k = LowKey::from(w);
    !Leaf::long_key(k.length) && k.offset.0 + k.length <= top
}

// Where a slot word's part may start, where it ends, and how long its key and value are.
fn word_ok(w: u64, top: usize, end: usize, prefix: usize) -> bool
    requires { prefix < 2 ^ 12 }
    ensures { Exact result (WordOk top end prefix w) }
{
    let s = Slot::from(w);
    end <= s.offset.0
        && s.offset.0 + s.suffix + s.value <= top
        && !Leaf::long_key(prefix + s.suffix)
        && !Leaf::long_value(s.value)
}

// Whether one part of the arena is below another.
fn below(arena: &[u8], a: Offset, n: usize, b: Offset, m: usize) -> bool
    requires { (a.0 + n ≤ length arena.now) × (b.0 + m ≤ length arena.now) }
    ensures { Exact result (part arena.now a.0 n ≺ part arena.now b.0 m) }
{
    compare(&arena[a.0..a.0 + n], &arena[b.0..b.0 + m]).is_lt()
}

fn word_end(w: u64) -> usize
    ensures { (result ≡ word_end w) × (result < 2 ^ 30) }
{
    let s = Slot::from(w);
    s.offset.0 + s.suffix + s.value
}

// A pair's charge: its whole key and its value.
fn pair_charge(w: u64, prefix: usize) -> usize
    requires { prefix < 2 ^ 12 }
    ensures { (result ≡ prefix + word_suffix w + word_value w) × (result < 2 ^ 25) }
{
    let s = Slot::from(w);
    prefix + s.suffix + s.value
}

// L1: whether a leaf's low key is below its upper key.
fn low_below(arena: &[u8], low: LowKey, upper: Option<LowKey>) -> bool
    requires { KeyAt arena.now 0 low × UpperAt arena.now 0 upper }
    ensures { Exact result (Under (upper_at arena.now upper) (key_at arena.now low)) }
{
    let Some(u) = upper else {
        return true;
    };
    below(arena, low.offset, low.length, u.offset, u.length)
}

// Only the last leaf may be empty.
fn not_empty(upper: Option<LowKey>, count: usize) -> bool
    ensures { (arena : List ℕ) → Exact result (NotEmpty (upper_at arena upper) count) }
{
    let Some(_) = upper else {
        return true;
    };
    0 < count
}

// What was lent, before W is tested.
#[derive(Clone, Copy)]
struct Lent<'a> {
    header: Header,
    dir: &'a [u32],
    slots: &'a [u64],
    arena: &'a [u8],
}

impl Lent<'_> {
    // A leaf's low key, by its directory word.
    fn read_low(&self, d: u32) -> Option<LowKey>
        requires { Shaped self.now.header.fanout (length self.now.dir.now) self.now.slots.now }
        ensures { LowRead self.now.header.fanout (length self.now.dir.now) self.now.slots.now self.now.arena.now d result }
    {
        let leaf = leaf_number(d);
        if self.dir.len() <= leaf.0 {
            return None;
        }
        let w = self.slots[low_key_slot(self.header.fanout, leaf).0];
        if !low_word_ok(w, self.arena.len()) {
            return None;
        }
        Some(LowKey::from(w))
    }

    // Whether the word at i stands behind the one before it, its suffix above that one's.
    fn next_ok(&self, i: SlotNo, prefix: usize) -> bool
        requires { NextAt self.now.slots.now self.now.arena.now i.0 prefix }
        ensures { Exact result (Follows self.now.arena.now prefix (get_or self.now.slots.now (i.0 - 1) 0) (get_or self.now.slots.now i.0 0)) }
    {
        let p = Slot::from(self.slots[i.0 - 1]);
        let w = self.slots[i.0];
        let s = Slot::from(w);
        word_ok(w, self.arena.len(), p.offset.0 + p.suffix + p.value, prefix)
            && below(self.arena, p.offset, p.suffix, s.offset, s.suffix)
    }

    // The slot words of a leaf from the second on.
    fn check_rest(&self, first: SlotNo, count: usize, prefix: usize) -> Option<Sum>
        requires { Rested self.now.slots.now self.now.arena.now first.0 count prefix }
        ensures { RestRead self.now.slots.now self.now.arena.now first.0 count prefix result }
    {
        let top = first.0 + count;
        let mut charge = pair_charge(self.slots[first.0], prefix);
        for i in first.0 + 1..top {
            if !self.next_ok(SlotNo(i), prefix) {
                return None;
            }
            charge += pair_charge(self.slots[i], prefix);
        }
        Some(Sum {
            end: word_end(self.slots[top - 1]),
            charge,
        })
    }

    // Whether a leaf's first word stands behind its low key, its suffix not below that key's.
    fn first_ok(&self, i: SlotNo, prefix: usize, low: LowKey) -> bool
        requires { (i.0 < length self.now.slots.now) × KeyAt self.now.arena.now prefix low }
        ensures { Exact result (FirstOk self.now.arena.now prefix low (get_or self.now.slots.now i.0 0)) }
    {
        let w = self.slots[i.0];
        let s = Slot::from(w);
        word_ok(w, self.arena.len(), low.offset.0 + low.length, prefix)
            && !below(
                self.arena,
                s.offset,
                s.suffix,
                Offset(low.offset.0 + prefix),
                low.length - prefix,
            )
    }

    // Whether a leaf's last suffix is below its upper key.
    fn last_ok(&self, i: SlotNo, prefix: usize, upper: Option<LowKey>) -> bool
        requires { (i.0 < length self.now.slots.now) × (word_end (get_or self.now.slots.now i.0 0) ≤ length self.now.arena.now)
            × UpperAt self.now.arena.now prefix upper }
        ensures { Exact result (Under (upper_part self.now.arena.now prefix upper) (suffix_at self.now.arena.now (get_or self.now.slots.now i.0 0))) }
    {
        let Some(u) = upper else {
            return true;
        };
        let s = Slot::from(self.slots[i.0]);
        below(
            self.arena,
            s.offset,
            s.suffix,
            Offset(u.offset.0 + prefix),
            u.length - prefix,
        )
    }

    // A leaf's slot words, between its low key and its upper key.
    fn check_pairs(
        &self,
        first: SlotNo,
        count: usize,
        prefix: usize,
        low: LowKey,
        upper: Option<LowKey>,
    ) -> Option<Sum>
        requires { PairsAt self.now.slots.now self.now.arena.now first.0 count prefix low upper }
        ensures { PairsRead self.now.slots.now self.now.arena.now first.0 count prefix low upper result }
    {
        if count == 0 {
            return Some(Sum {
                end: low.offset.0 + low.length,
                charge: 0,
            });
        }
        if !self.first_ok(first, prefix, low) {
            return None;
        }
        let sum = self.check_rest(first, count, prefix)?;
        if !self.last_ok(SlotNo(first.0 + count - 1), prefix, upper) {
            return None;
        }
        Some(sum)
    }

    // A leaf whose low key and upper key are read, its parts from `end` on.
    fn check_leaf(&self, d: u32, low: LowKey, upper: Option<LowKey>, end: usize) -> Option<Sum>
        requires { LeafAt self.now.header.fanout self.now.slots.now self.now.arena.now d low upper }
        ensures { LeafRead self.now.header.fanout self.now.slots.now self.now.arena.now d low upper end result }
    {
        let count = pair_count(d);
        if low.offset.0 < end
            || !low_below(self.arena, low, upper)
            || self.header.fanout <= count
            || !not_empty(upper, count)
        {
            return None;
        }
        let prefix = prefix_length(self.arena, low, upper);
        let first = first_slot(self.header.fanout, leaf_number(d));
        let sum = self.check_pairs(first, count, prefix, low, upper)?;
        Some(Sum {
            end: sum.end,
            charge: sum.charge + low.length,
        })
    }

    // The upper key of the leaf before the k-th: the k-th leaf's low key, or none.
    fn read_upper(&self, k: usize) -> Option<Option<LowKey>>
        requires { Shaped self.now.header.fanout (length self.now.dir.now) self.now.slots.now × (self.now.header.leaves ≤ length self.now.dir.now) }
        ensures { NextRead self.now.header.fanout self.now.header.leaves self.now.dir.now self.now.slots.now self.now.arena.now k result }
    {
        if self.header.leaves <= k {
            return Some(None);
        }
        Some(Some(self.read_low(self.dir[k])?))
    }

    // The j-th leaf.
    fn check_next(&self, j: usize, s: State) -> Option<State>
        requires { StepAt self.now.header.fanout self.now.header.leaves self.now.dir.now self.now.slots.now self.now.arena.now j s }
        ensures { StepRead self.now.header.fanout self.now.header.leaves self.now.dir.now self.now.slots.now self.now.arena.now j s result }
    {
        let d = self.dir[j];
        let upper = self.read_upper(j + 1)?;
        let sum = self.check_leaf(d, s.low, upper, s.end)?;
        Some(State {
            low: upper.unwrap_or(s.low),
            end: sum.end,
            pairs: s.pairs + pair_count(d),
            charge: s.charge + sum.charge,
        })
    }

    // All leaves, the first one's low key read.
    fn check_leaves(&self, low: LowKey) -> Option<State>
        requires { LeavesAt self.now.header.fanout self.now.header.leaves self.now.dir.now self.now.slots.now self.now.arena.now low }
        ensures { LeavesRead self.now.header.fanout self.now.header.leaves self.now.dir.now self.now.slots.now self.now.arena.now result }
    {
        let mut s = State {
            low,
            end: 0,
            pairs: 0,
            charge: 0,
        };
        for j in 0..self.header.leaves {
            s = self.check_next(j, s)?;
        }
        Some(s)
    }
}

// L9: whether the leaves add up to what the header says, and their charge fits the arena.
fn adds_up(h: Header, s: State, top: usize) -> bool
    ensures { Exact result ((h.pairs ≡ s.pairs) × (h.charge ≡ s.charge) × (s.charge ≤ top)) }
{
    h.pairs == s.pairs && h.charge == s.charge && s.charge <= top
}

/// W: whether header and buffers hold an index.
pub fn holds_index(h: Header, dir: &[u32], slots: &[u64], arena: &[u8]) -> bool
    ensures { Exact result (W h dir.now slots.now arena.now) }
{
    if !sizes_met(h.fanout, dir.len(), slots.len(), arena.len())
        || h.leaves == 0
        || dir.len() < h.leaves
    {
        return false;
    }
    let lent = Lent {
        header: h,
        dir,
        slots,
        arena,
    };
    let Some(low) = lent.read_low(dir[0]) else {
        return false;
    };
    if low.length != 0 {
        return false;
    }
    let Some(s) = lent.check_leaves(low) else {
        return false;
    };
    adds_up(h, s, arena.len())
}
