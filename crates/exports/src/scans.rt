// The scanning calls, and the range of a prefix.
ghost use Rattle.std.specs.Prelude.{◌≡◌};
ghost use Rattle.exports.specs.Replies.{FirstReply, GtReply, PrefixReply, RangeReply, bound_read, bound_told};

use layout::Header;
use model::{Bound, Range, Refusal};
use prefixes::scan_prefix;
use tree_range::{Seen, first, first_in_range, get_gt};

// (No `From` between bounds and numbers: neither type is this crate's.)
fn tell_bound(b: Bound) -> usize
    ensures { result ≡ bound_told b }
{
    match b {
        Bound::Included => 0,
        Bound::Excluded => 1,
        Bound::Open => 2,
    }
}

// A bound's kind by its number; from 2 on it is open.
fn read_bound(n: usize) -> Bound
    ensures { result ≡ bound_read n }
{
    match n {
        0 => Bound::Included,
        1 => Bound::Excluded,
        _ => Bound::Open,
    }
}

/// The kinds of a range's bounds, 0 included, 1 excluded, 2 open, and how many bytes of its end were written. Refused, `length` is the one
/// that the refusal also returns, and the rest is 0.
#[repr(C)]
#[derive(Debug, Clone, Copy, PartialEq, Eq, Default)]
pub struct Span {
    pub refusal: usize,
    pub length: usize,
    pub start: usize,
    pub end: usize,
    pub end_length: usize,
}

impl From<Result<prefixes::Span, Refusal>> for Span {
    ghost use Rattle.std.specs.Prelude.{◌≡◌};
    ghost use Rattle.exports.specs.Replies.{span_told};

    ghost from_gives = { λ a r. r ≡ span_told a };

    fn from(a: Result<prefixes::Span, Refusal>) -> Span {
        match a {
            Ok(span) => Span {
                refusal: 0,
                length: 0,
                start: tell_bound(span.range.start),
                end: tell_bound(span.range.end),
                end_length: span.end,
            },
            Err(x) => Span {
                refusal: x.number(),
                length: x.length().unwrap_or(0),
                ..Span::default()
            },
        }
    }
}

/// A pair found: the length of its key, which is in the output, and where its value lies in the arena. Refused, `length` is the one that
/// the refusal also returns. Refused or at the end of the range, the rest is 0.
#[repr(C)]
#[derive(Debug, Clone, Copy, PartialEq, Eq, Default)]
pub struct Scanned {
    pub refusal: usize,
    pub length: usize,
    pub found: usize,
    pub key: usize,
    pub offset: usize,
    pub value: usize,
}

impl From<Result<Option<Seen>, Refusal>> for Scanned {
    ghost use Rattle.std.specs.Prelude.{◌≡◌};
    ghost use Rattle.exports.specs.Replies.{scan_told};

    ghost from_gives = { λ a r. r ≡ scan_told a };

    fn from(a: Result<Option<Seen>, Refusal>) -> Scanned {
        match a {
            Ok(Some(pair)) => Scanned {
                refusal: 0,
                length: 0,
                found: 1,
                key: pair.key,
                offset: pair.place.0,
                value: pair.value,
            },
            Ok(None) => Scanned::default(),
            Err(x) => Scanned {
                refusal: x.number(),
                length: x.length().unwrap_or(0),
                ..Scanned::default()
            },
        }
    }
}

/// The range of a prefix, its end written to `out`. Refused as 3 or 5.
pub fn olybzhan_scan_prefix(prefix: &[u8], out: &mut [u8]) -> Span
    ensures { PrefixReply prefix.now out.old out.new result }
{
    Span::from(scan_prefix(prefix, out))
}

/// The first pair in a range, its bound kinds by their numbers. Refused as 2, 3, 6 or 5.
pub fn olybzhan_first_in_range_by_value(
    h: Header,
    dir: &[u32],
    slots: &[u64],
    arena: &[u8],
    from: usize,
    to: usize,
    start: &[u8],
    end: &[u8],
    out: &mut [u8],
) -> Scanned
    ensures { RangeReply h dir.now slots.now arena.now from to start.now end.now out.old out.new result }
{
    let range = Range {
        start: read_bound(from),
        end: read_bound(to),
    };
    Scanned::from(first_in_range(h, dir, slots, arena, range, start, end, out))
}

/// The first pair above a key. Refused as 2, 3 or 5.
pub fn olybzhan_get_gt_by_value(
    h: Header,
    dir: &[u32],
    slots: &[u64],
    arena: &[u8],
    key: &[u8],
    out: &mut [u8],
) -> Scanned
    ensures { GtReply h dir.now slots.now arena.now key.now out.old out.new result }
{
    Scanned::from(get_gt(h, dir, slots, arena, key, out))
}

/// The first pair of all. Refused as 2 or 5.
pub fn olybzhan_first_by_value(
    h: Header,
    dir: &[u32],
    slots: &[u64],
    arena: &[u8],
    out: &mut [u8],
) -> Scanned
    ensures { FirstReply h dir.now slots.now arena.now out.old out.new result }
{
    Scanned::from(first(h, dir, slots, arena, out))
}
