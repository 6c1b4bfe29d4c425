// The calls that scan: the first pair in a range, its value, the first pair above a key, the first pair of all.
// (Header, directory, slots and arena stay apart in the parameters: document 01 lends them so, to callers in C and Rust too.)
#![tactic(auto)]

ghost use Rattle.tree_range.specs.Outcomes.{FirstOutcome, GtOutcome, RangeOutcome, RangeValueOutcome};

pub mod bounds;
pub mod inner;
pub mod start;

use layout::Header;
use model::{Bound, Range, Refusal};
use tree_read::open::open;
use words::Offset;

/// A pair in the range: its key's length, and where its value lies in the arena, all in bytes. The key itself is in the caller's output.
#[derive(Debug, Clone, Copy, PartialEq, Eq)]
pub struct Seen {
    pub key: usize,
    pub place: Offset,
    pub value: usize,
}

/// The first pair in the range, or none; a refused call writes nothing to the output.
pub fn first_in_range(
    h: Header,
    dir: &[u32],
    slots: &[u64],
    arena: &[u8],
    range: Range,
    start: &[u8],
    end: &[u8],
    out: &mut [u8],
) -> Result<Option<Seen>, Refusal>
    ensures { RangeOutcome h dir.now slots.now arena.now range start.now end.now out.old out.new result }
{
    inner::first_in_range(&open(h, dir, slots, arena)?, range, start, end, out)
}

/// The value of that pair, a part of the arena; an empty part at the end of the range or where the call is refused: a call that can't fail
/// (`RangeValueOutcome`).
pub fn range_value<'a>(
    h: Header,
    dir: &[u32],
    slots: &[u64],
    arena: &'a [u8],
    range: Range,
    start: &[u8],
    end: &[u8],
) -> &'a [u8]
    ensures { RangeValueOutcome h dir.now slots.now arena.now range start.now end.now result.now }
{
    let Ok(v) = open(h, dir, slots, arena) else {
        return &arena[0..0];
    };
    inner::range_value(&v, arena, range, start, end)
}

/// The first pair above the key. No key is read beside the open end.
pub fn get_gt(
    h: Header,
    dir: &[u32],
    slots: &[u64],
    arena: &[u8],
    key: &[u8],
    out: &mut [u8],
) -> Result<Option<Seen>, Refusal>
    ensures { GtOutcome h dir.now slots.now arena.now key.now out.old out.new result }
{
    let above = Range {
        start: Bound::Excluded,
        end: Bound::Open,
    };
    first_in_range(h, dir, slots, arena, above, key, &[], out)
}

/// The first pair of all. No key is read beside the open bounds.
pub fn first(
    h: Header,
    dir: &[u32],
    slots: &[u64],
    arena: &[u8],
    out: &mut [u8],
) -> Result<Option<Seen>, Refusal>
    ensures { FirstOutcome h dir.now slots.now arena.now out.old out.new result }
{
    let all = Range {
        start: Bound::Open,
        end: Bound::Open,
    };
    first_in_range(h, dir, slots, arena, all, &[], &[], out)
}
