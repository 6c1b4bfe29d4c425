// The changing calls with the header lent and changed in place: a pointer to its four numbers.
ghost use Rattle.changes.specs.Outcomes.{lent};
ghost use Rattle.exports.specs.Replies.{ClearReply, InsertReply, RemoveReply, with_header, with_header_old};

use crate::Told;
use crate::writes::OldPart;
use kernel::{clear, insert, remove};
use layout::Header;

/// A new pair, or a new value for a key that has one, whose old value is written to `out`. Refused as 2, 3, 4, 5, 7 or 8, the header is as
/// it came.
pub fn olybzhan_insert(
    h: &mut Header,
    dir: &mut [u32],
    slots: &mut [u64],
    arena: &mut [u8],
    key: &[u8],
    value: &[u8],
    out: &mut [u8],
) -> OldPart
    ensures { InsertReply h.old key.now value.now (lent dir.old slots.old arena.old out.old) (lent dir.new slots.new arena.new out.new) (with_header_old result h.new) }
{
    OldPart::from(insert(h, dir, slots, arena, key, value, out))
}

/// A key's pair taken out, its value written to `out`. Where the key has none, nothing is changed. Refused as 2, 3 or 5, the header is as it
/// came.
pub fn olybzhan_remove(
    h: &mut Header,
    dir: &mut [u32],
    slots: &mut [u64],
    arena: &mut [u8],
    key: &[u8],
    out: &mut [u8],
) -> OldPart
    ensures { RemoveReply h.old key.now (lent dir.old slots.old arena.old out.old) (lent dir.new slots.new arena.new out.new) (with_header_old result h.new) }
{
    OldPart::from(remove(h, dir, slots, arena, key, out))
}

/// An index made fresh again. Refused as 2, the header is as it came.
pub fn olybzhan_clear(h: &mut Header, dir: &mut [u32], slots: &mut [u64], arena: &[u8]) -> Told
    ensures { ClearReply h.old dir.old slots.old arena.now dir.new slots.new (with_header result h.new) }
{
    Told::from(clear(h, dir, slots, arena))
}
