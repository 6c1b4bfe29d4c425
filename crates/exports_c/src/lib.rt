// The calls for C and Rust, under their C names: each is the function of that name of the crate exports. (Each once more, with its clauses,
// since a C function stands in a static library, and no crate can build on one.)
#![tactic(auto)]

ghost use Rattle.std.specs.Prelude.{◌≡◌};
ghost use Rattle.lists.specs.Exact.{Exact};
ghost use Rattle.layout.specs.Lays.{W};
ghost use Rattle.changes.specs.Outcomes.{lent};
ghost use Rattle.exports.specs.Replies.{ClearReply, ContainsReply, CreateReply, FirstReply, GetReply, GtReply, InsertReply, LeafReply, LenReply, PrefixReply, RangeReply, RemoveReply, with_header, with_header_old};

use exports::reads::{Place, Shown};
use exports::scans::{Scanned, Span};
use exports::writes::{OldPart, OldReply};
use exports::{Reply, Told};
use layout::Header;

// A new pair, or a new value for a key that has one, whose old value is written to `out`. Refused as 2, 3, 4, 5, 7 or 8, the header is as
// it came.
#[unsafe(no_mangle)]
pub extern "C" fn olybzhan_insert(
    h: &mut Header,
    dir: &mut [u32],
    slots: &mut [u64],
    arena: &mut [u8],
    key: &[u8],
    value: &[u8],
    out: &mut [u8],
) -> OldPart
    ensures { InsertReply h.old key.now value.now (lent dir.old slots.old arena.old out.old) (lent dir.new slots.new arena.new out.new) (with_header_old result h.new) }
{
    exports::in_place::olybzhan_insert(h, dir, slots, arena, key, value, out)
}

// A key's pair taken out, its value written to `out`. Where the key has none, nothing is changed. Refused as 2, 3 or 5, the header is as it
// came.
#[unsafe(no_mangle)]
pub extern "C" fn olybzhan_remove(
    h: &mut Header,
    dir: &mut [u32],
    slots: &mut [u64],
    arena: &mut [u8],
    key: &[u8],
    out: &mut [u8],
) -> OldPart
    ensures { RemoveReply h.old key.now (lent dir.old slots.old arena.old out.old) (lent dir.new slots.new arena.new out.new) (with_header_old result h.new) }
{
    exports::in_place::olybzhan_remove(h, dir, slots, arena, key, out)
}

// An index made fresh again. Refused as 2, the header is as it came.
#[unsafe(no_mangle)]
pub extern "C" fn olybzhan_clear(
    h: &mut Header,
    dir: &mut [u32],
    slots: &mut [u64],
    arena: &[u8],
) -> Told
    ensures { ClearReply h.old dir.old slots.old arena.now dir.new slots.new (with_header result h.new) }
{
    exports::in_place::olybzhan_clear(h, dir, slots, arena)
}

// W: whether header and buffers hold an index.
#[unsafe(no_mangle)]
pub extern "C" fn olybzhan_holds_index_by_value(
    h: Header,
    dir: &[u32],
    slots: &[u64],
    arena: &[u8],
) -> bool
    ensures { Exact result (W h dir.now slots.now arena.now) }
{
    exports::olybzhan_holds_index_by_value(h, dir, slots, arena)
}

// A fresh index. Refused as 1, the header is all zero.
#[unsafe(no_mangle)]
pub extern "C" fn olybzhan_create_by_value(
    fanout: usize,
    dir: &mut [u32],
    slots: &mut [u64],
    arena: &[u8],
) -> Reply
    ensures { CreateReply fanout dir.old slots.old arena.now dir.new slots.new result }
{
    exports::olybzhan_create_by_value(fanout, dir, slots, arena)
}

// An index made fresh again. Refused as 2, the header is as it came.
#[unsafe(no_mangle)]
pub extern "C" fn olybzhan_clear_by_value(
    h: Header,
    dir: &mut [u32],
    slots: &mut [u64],
    arena: &[u8],
) -> Reply
    ensures { ClearReply h dir.old slots.old arena.now dir.new slots.new result }
{
    exports::olybzhan_clear_by_value(h, dir, slots, arena)
}

// The number of pairs, in `length`. Refused as 2.
#[unsafe(no_mangle)]
pub extern "C" fn olybzhan_len_by_value(h: Header, dir: &[u32], slots: &[u64], arena: &[u8]) -> Told
    ensures { LenReply h dir.now slots.now arena.now result }
{
    exports::olybzhan_len_by_value(h, dir, slots, arena)
}

// Whether the index holds the key, 1 or 0 in `length`. Refused as 2 or 3.
#[unsafe(no_mangle)]
pub extern "C" fn olybzhan_contains_key_by_value(
    h: Header,
    dir: &[u32],
    slots: &[u64],
    arena: &[u8],
    key: &[u8],
) -> Told
    ensures { ContainsReply h dir.now slots.now arena.now key.now result }
{
    exports::reads::olybzhan_contains_key_by_value(h, dir, slots, arena, key)
}

// Where the key's value lies in the arena. Refused as 2 or 3.
#[unsafe(no_mangle)]
pub extern "C" fn olybzhan_get_by_value(
    h: Header,
    dir: &[u32],
    slots: &[u64],
    arena: &[u8],
    key: &[u8],
) -> Place
    ensures { GetReply h dir.now slots.now arena.now key.now result }
{
    exports::reads::olybzhan_get_by_value(h, dir, slots, arena, key)
}

// The leaf at a place of the leaf list, counted in key order from 0. Refused as 2.
#[unsafe(no_mangle)]
pub extern "C" fn olybzhan_leaf_at_by_value(
    h: Header,
    dir: &[u32],
    slots: &[u64],
    arena: &[u8],
    place: usize,
) -> Shown
    ensures { LeafReply h dir.now slots.now arena.now place result }
{
    exports::reads::olybzhan_leaf_at_by_value(h, dir, slots, arena, place)
}

// The range of a prefix, its end written to `out`. Refused as 3 or 5.
#[unsafe(no_mangle)]
pub extern "C" fn olybzhan_scan_prefix(prefix: &[u8], out: &mut [u8]) -> Span
    ensures { PrefixReply prefix.now out.old out.new result }
{
    exports::scans::olybzhan_scan_prefix(prefix, out)
}

// The first pair in a range, its bound kinds by their numbers. Refused as 2, 3, 6 or 5.
#[unsafe(no_mangle)]
pub extern "C" fn olybzhan_first_in_range_by_value(
    h: Header,
    dir: &[u32],
    slots: &[u64],
    arena: &[u8],
    from: usize,
    to: usize,
    start: &[u8],
    end: &[u8],
    out: &mut [u8],
) -> Scanned
    ensures { RangeReply h dir.now slots.now arena.now from to start.now end.now out.old out.new result }
{
    exports::scans::olybzhan_first_in_range_by_value(
        h, dir, slots, arena, from, to, start, end, out,
    )
}

// The first pair above a key. Refused as 2, 3 or 5.
#[unsafe(no_mangle)]
pub extern "C" fn olybzhan_get_gt_by_value(
    h: Header,
    dir: &[u32],
    slots: &[u64],
    arena: &[u8],
    key: &[u8],
    out: &mut [u8],
) -> Scanned
    ensures { GtReply h dir.now slots.now arena.now key.now out.old out.new result }
{
    exports::scans::olybzhan_get_gt_by_value(h, dir, slots, arena, key, out)
}

// The first pair of all. Refused as 2 or 5.
#[unsafe(no_mangle)]
pub extern "C" fn olybzhan_first_by_value(
    h: Header,
    dir: &[u32],
    slots: &[u64],
    arena: &[u8],
    out: &mut [u8],
) -> Scanned
    ensures { FirstReply h dir.now slots.now arena.now out.old out.new result }
{
    exports::scans::olybzhan_first_by_value(h, dir, slots, arena, out)
}

// A new pair, or a new value for a key that has one, whose old value is written to `out`. Refused as 2, 3, 4, 5, 7 or 8, the header is as
// it came.
#[unsafe(no_mangle)]
pub extern "C" fn olybzhan_insert_by_value(
    h: Header,
    dir: &mut [u32],
    slots: &mut [u64],
    arena: &mut [u8],
    key: &[u8],
    value: &[u8],
    out: &mut [u8],
) -> OldReply
    ensures { InsertReply h key.now value.now (lent dir.old slots.old arena.old out.old) (lent dir.new slots.new arena.new out.new) result }
{
    exports::writes::olybzhan_insert_by_value(h, dir, slots, arena, key, value, out)
}

// A key's pair taken out, its value written to `out`. Where the key has none, nothing is changed. Refused as 2, 3 or 5, the header is as it
// came.
#[unsafe(no_mangle)]
pub extern "C" fn olybzhan_remove_by_value(
    h: Header,
    dir: &mut [u32],
    slots: &mut [u64],
    arena: &mut [u8],
    key: &[u8],
    out: &mut [u8],
) -> OldReply
    ensures { RemoveReply h key.now (lent dir.old slots.old arena.old out.old) (lent dir.new slots.new arena.new out.new) result }
{
    exports::writes::olybzhan_remove_by_value(h, dir, slots, arena, key, out)
}
