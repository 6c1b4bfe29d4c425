// The packed words of the index, and the types that keep a leaf number, a slot number and an arena offset apart.
#![tactic(auto)]

ghost use Rattle.std.specs.Prelude.{◌≡◌, ◌+◌, ◌*◌, ◌^◌, ◌<◌};
ghost use Rattle.lists.specs.Exact.{Exact};
ghost use Rattle.words.specs.Words.{SlotFits, Unpacked, slot_word, LowKeyFits, LowKeyUnpacked, low_key_word, word_value, word_leaf, word_count, directory_word, first_slot, low_key_slot};

// A leaf's number in the pool.
#[derive(Debug, Clone, Copy, PartialEq, Eq, PartialOrd, Ord)]
pub struct LeafNo(pub usize);

// A word's place in the slot buffer.
#[derive(Debug, Clone, Copy, PartialEq, Eq, PartialOrd, Ord)]
pub struct SlotNo(pub usize);

// A byte's place in the arena.
#[derive(Debug, Clone, Copy, PartialEq, Eq, PartialOrd, Ord)]
pub struct Offset(pub usize);

// A pair: where its suffix starts, the value right behind, and the length of each.
#[derive(Debug, Clone, Copy, PartialEq, Eq)]
pub struct Slot {
    pub offset: Offset,
    pub suffix: usize,
    pub value: usize,
}

#[derive(Debug, Clone, Copy, PartialEq, Eq)]
pub struct LowKey {
    pub offset: Offset,
    pub length: usize,
}

const SUFFIX_UNIT: u64 = 0x100_0000;

const OFFSET_UNIT: u64 = 0x10_0000_0000;

const SUFFIX_SPAN: u64 = 0x1000;

const LEAF_UNIT: u32 = 0x10_0000;

// Packing asks that the numbers fit, and a `From` can ask nothing: so it is a function.
pub fn pack_slot(s: Slot) -> u64
    requires { SlotFits s }
    ensures { result ≡ slot_word s.offset.0 s.suffix s.value }
{
    s.offset.0 as u64 * OFFSET_UNIT + s.suffix as u64 * SUFFIX_UNIT + s.value as u64
}

impl From<u64> for Slot {
    ghost from_gives = { λ w s. Unpacked w s };

    fn from(w: u64) -> Slot {
        Slot {
            offset: Offset((w / OFFSET_UNIT) as usize),
            suffix: (w / SUFFIX_UNIT % SUFFIX_SPAN) as usize,
            value: (w % SUFFIX_UNIT) as usize,
        }
    }
}

pub fn pack_low_key(k: LowKey) -> u64
    requires { LowKeyFits k }
    ensures { result ≡ low_key_word k.offset.0 k.length }
{
    k.offset.0 as u64 * OFFSET_UNIT + k.length as u64 * SUFFIX_UNIT
}

impl From<u64> for LowKey {
    ghost from_gives = { λ w k. LowKeyUnpacked w k };

    fn from(w: u64) -> LowKey {
        LowKey {
            offset: Offset((w / OFFSET_UNIT) as usize),
            length: (w / SUFFIX_UNIT % SUFFIX_SPAN) as usize,
        }
    }
}

// Only a word without value bits is a low-key word.
pub fn is_low_key(w: u64) -> bool
    ensures { Exact result (word_value w ≡ 0) }
{
    w % SUFFIX_UNIT == 0
}

pub fn pack_directory(leaf: LeafNo, pairs: usize) -> u32
    requires { (leaf.0 < 2 ^ 12) × (pairs < 2 ^ 20) }
    ensures { result ≡ directory_word leaf.0 pairs }
{
    leaf.0 as u32 * LEAF_UNIT + pairs as u32
}

pub fn leaf_number(w: u32) -> LeafNo
    ensures { (result.0 ≡ word_leaf w) × (result.0 < 2 ^ 12) }
{
    LeafNo((w / LEAF_UNIT) as usize)
}

// The only place that reads a directory word's count.
pub fn pair_count(w: u32) -> usize
    ensures { (result ≡ word_count w) × (result < 2 ^ 20) }
{
    (w % LEAF_UNIT) as usize
}

pub fn first_slot(fanout: usize, leaf: LeafNo) -> SlotNo
    requires { first_slot fanout leaf.0 < 2 ^ 64 }
    ensures { result.0 ≡ first_slot fanout leaf.0 }
{
    SlotNo(leaf.0 * fanout)
}

pub fn low_key_slot(fanout: usize, leaf: LeafNo) -> SlotNo
    requires { (0 < fanout) × (low_key_slot fanout leaf.0 < 2 ^ 64) }
    ensures { result.0 ≡ low_key_slot fanout leaf.0 }
{
    SlotNo(leaf.0 * fanout + (fanout - 1))
}
