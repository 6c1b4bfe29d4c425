// The leaf's changing part, by leaf.rs's names.
#![tactic(auto)]

ghost use Rattle.leaf_edit.specs.Shorten.{CanShorten, ShortenedKeys};

use leaf::prefix_length;
use slots::shorten_keys;
use words::LowKey;

// L6: after a split the leaf's prefix is as long as L2 says, and its suffixes lose the bytes that it covers now. No byte moves. Where the
// leaf has no upper key, the prefix length stays 0.
pub fn shorten_keys_after_split(
    slots: &mut [u64],
    arena: &[u8],
    fanout: usize,
    d: u32,
    old: usize,
    low: LowKey,
    upper: Option<LowKey>,
) -> usize
    requires { CanShorten fanout slots.old arena.now d old low upper }
    ensures { ShortenedKeys fanout slots.old arena.now d old low upper result slots.new }
{
    let Some(_) = upper else {
        return 0;
    };
    let length = prefix_length(arena, low, upper);
    shorten_keys(slots, fanout, d, length - old);
    length
}
