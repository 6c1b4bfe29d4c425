// The calls that change one pair.
ghost use Rattle.changes.specs.Outcomes.{lent};
ghost use Rattle.exports.specs.Replies.{InsertReply, RemoveReply};

use changes::Changed;
use layout::Header;
use model::Refusal;
use tree_insert::insert;
use tree_remove::remove;

/// Whether there was an old value, 1 or 0, and its length. The old value is at the output's front. Refused, `length` is the one that the
/// refusal also returns, and `found` is 0.
#[repr(C)]
#[derive(Debug, Clone, Copy, PartialEq, Eq, Default)]
pub struct OldPart {
    pub refusal: usize,
    pub length: usize,
    pub found: usize,
}

impl From<Result<Option<usize>, Refusal>> for OldPart {
    ghost use Rattle.std.specs.Prelude.{◌≡◌};
    ghost use Rattle.exports.specs.Replies.{old_told};

    ghost from_gives = { λ a r. r ≡ old_told a };

    fn from(a: Result<Option<usize>, Refusal>) -> OldPart {
        match a {
            Ok(Some(length)) => OldPart {
                refusal: 0,
                length,
                found: 1,
            },
            Ok(None) => OldPart::default(),
            Err(x) => OldPart {
                refusal: x.number(),
                length: x.length().unwrap_or(0),
                found: 0,
            },
        }
    }
}

/// The same with the header as it then is.
#[repr(C)]
#[derive(Debug, Clone, Copy)]
pub struct OldReply {
    pub refusal: usize,
    pub length: usize,
    pub found: usize,
    pub header: Header,
}

impl From<Changed> for OldReply {
    ghost use Rattle.std.specs.Prelude.{◌≡◌};
    ghost use Rattle.exports.specs.Replies.{changed_told};

    ghost from_gives = { λ a r. r ≡ changed_told a };

    fn from(a: Changed) -> OldReply {
        let told = OldPart::from(a.old);
        OldReply {
            refusal: told.refusal,
            length: told.length,
            found: told.found,
            header: a.header,
        }
    }
}

/// A new pair, or a new value for a key that has one, whose old value is written to `out`. Refused as 2, 3, 4, 5, 7 or 8, the header is as
/// it came.
pub fn olybzhan_insert_by_value(
    h: Header,
    dir: &mut [u32],
    slots: &mut [u64],
    arena: &mut [u8],
    key: &[u8],
    value: &[u8],
    out: &mut [u8],
) -> OldReply
    ensures { InsertReply h key.now value.now (lent dir.old slots.old arena.old out.old) (lent dir.new slots.new arena.new out.new) result }
{
    OldReply::from(insert(h, dir, slots, arena, key, value, out))
}

/// A key's pair taken out, its value written to `out`. Where the key has none, nothing is changed. Refused as 2, 3 or 5, the header is as it
/// came.
pub fn olybzhan_remove_by_value(
    h: Header,
    dir: &mut [u32],
    slots: &mut [u64],
    arena: &mut [u8],
    key: &[u8],
    out: &mut [u8],
) -> OldReply
    ensures { RemoveReply h key.now (lent dir.old slots.old arena.old out.old) (lent dir.new slots.new arena.new out.new) result }
{
    OldReply::from(remove(h, dir, slots, arena, key, out))
}
