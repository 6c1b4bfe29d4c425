// The calls that look up one key, and the one that shows a leaf of the leaf list.
// (Header, directory, slots and arena stay apart in the parameters: document 01 lends them so, to callers in C and Rust too.)
#![tactic(auto)]

ghost use Rattle.tree_get.specs.Outcomes.{ContainsOutcome, GetOutcome, LeafOutcome, ValueOutcome};

pub mod inner;

use layout::Header;
use model::Refusal;
use tree_read::open::open;
use words::{LowKey, Offset};

/// Where a value lies in the arena, and its length in bytes.
#[derive(Debug, Clone, Copy, PartialEq, Eq)]
pub struct Found {
    pub at: Offset,
    pub length: usize,
}

/// A leaf of the leaf list: where its low key lies, its upper key or none, its prefix length in bytes and its number of pairs.
#[derive(Debug, Clone, Copy, PartialEq, Eq)]
pub struct Shown {
    pub low: LowKey,
    pub upper: Option<LowKey>,
    pub prefix_length: usize,
    pub pairs: usize,
}

/// Where the key's value lies, or none.
pub fn get(
    h: Header,
    dir: &[u32],
    slots: &[u64],
    arena: &[u8],
    key: &[u8],
) -> Result<Option<Found>, Refusal>
    ensures { GetOutcome h dir.now slots.now arena.now key.now result }
{
    inner::get(&open(h, dir, slots, arena)?, key)
}

/// Whether the key has a pair.
pub fn contains_key(
    h: Header,
    dir: &[u32],
    slots: &[u64],
    arena: &[u8],
    key: &[u8],
) -> Result<bool, Refusal>
    ensures { ContainsOutcome h dir.now slots.now arena.now key.now result }
{
    inner::contains_key(&open(h, dir, slots, arena)?, key)
}

/// The value itself, that part of the arena; an empty part where there is none or the call is refused: a call that can't fail (`ValueOutcome`).
pub fn get_value<'a>(h: Header, dir: &[u32], slots: &[u64], arena: &'a [u8], key: &[u8]) -> &'a [u8]
    ensures { ValueOutcome h dir.now slots.now arena.now key.now result.now }
{
    match get(h, dir, slots, arena, key) {
        Ok(Some(found)) => {
            let from = found.at.0;
            let end = from + found.length;
            &arena[from..end]
        }
        Ok(None) => &arena[0..0],
        Err(_) => &arena[0..0],
    }
}

/// The leaf at a place of the leaf list, counted in key order from 0.
pub fn leaf_at(
    h: Header,
    dir: &[u32],
    slots: &[u64],
    arena: &[u8],
    place: usize,
) -> Result<Option<Shown>, Refusal>
    ensures { LeafOutcome h dir.now slots.now arena.now place result }
{
    Ok(inner::leaf_at(&open(h, dir, slots, arena)?, place))
}
