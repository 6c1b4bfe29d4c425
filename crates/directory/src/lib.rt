// A directory word put in or taken out, with the slot words of its leaf: a leaf cut in two, and a leaf that takes over the next one's words.
#![tactic(auto)]

ghost use Rattle.directory.specs.Cuts.{CanCut, CutLeaf};
ghost use Rattle.directory.specs.Takes.{CanTakeOver, TakenOver};

use moves::move_within;
use words::{
    LeafNo, LowKey, first_slot, leaf_number, low_key_slot, pack_directory, pack_low_key, pair_count,
};

// The stored pairs of the j-th leaf cut at its i-th slot: those from there on are the leaf `free`'s, behind the same prefix. Its low key lies in
// the arena already, between the two halves; its directory word goes in behind the j-th.
pub fn cut_leaf(
    dir: &mut [u32],
    slots: &mut [u64],
    fanout: usize,
    leaves: usize,
    j: usize,
    i: usize,
    free: LeafNo,
    low: LowKey,
)
    requires { CanCut fanout leaves dir.old slots.old j i free.0 low }
    ensures { CutLeaf fanout leaves dir.old slots.old j i free.0 low dir.new slots.new }
{
    let word = dir[j];
    let number = leaf_number(word);
    let right = pair_count(word) - i;
    let from = first_slot(fanout, number).0;
    let to = first_slot(fanout, free).0;
    move_within(slots, from + i, right, to);
    let at = low_key_slot(fanout, free).0;
    slots[at] = pack_low_key(low);
    move_within(dir, j + 1, leaves - (j + 1), j + 2);
    dir[j + 1] = pack_directory(free, right);
    dir[j] = pack_directory(number, i);
}

// L7, where the next leaf's suffixes lie behind a prefix of this leaf's low key: the j-th leaf takes over the slot words of the next, whose
// directory word goes.
pub fn take_over(dir: &mut [u32], slots: &mut [u64], fanout: usize, leaves: usize, j: usize)
    requires { CanTakeOver fanout leaves dir.old slots.old j }
    ensures { TakenOver fanout leaves dir.old slots.old j dir.new slots.new }
{
    let taker = leaf_number(dir[j]);
    let next = dir[j + 1];
    let pairs = pair_count(next);
    let to = first_slot(fanout, taker).0;
    let from = first_slot(fanout, leaf_number(next)).0;
    move_within(slots, from, pairs, to);
    dir[j] = pack_directory(taker, pairs);
    move_within(dir, j + 2, leaves - (j + 2), j + 1)
}
