// The calls that look up one key, and the one that shows a leaf of the leaf list.
ghost use Rattle.exports.specs.Replies.{ContainsReply, GetReply, LeafReply};

use crate::Told;
use layout::Header;
use model::Refusal;
use tree_get::{Found, contains_key, get, leaf_at};

impl From<Result<bool, Refusal>> for Told {
    ghost use Rattle.std.specs.Prelude.{◌≡◌};
    ghost use Rattle.exports.specs.Replies.{contained_told};

    ghost from_gives = { λ a r. r ≡ contained_told a };

    fn from(a: Result<bool, Refusal>) -> Told {
        match a {
            Ok(held) => Told {
                refusal: 0,
                length: usize::from(held),
            },
            Err(x) => Told::from(x),
        }
    }
}

/// Whether a value was found, 1 or 0, and where it lies in the arena. All but the refusal is 0 where there is none.
#[repr(C)]
#[derive(Debug, Clone, Copy, PartialEq, Eq, Default)]
pub struct Place {
    pub refusal: usize,
    pub found: usize,
    pub offset: usize,
    pub length: usize,
}

impl From<Result<Option<Found>, Refusal>> for Place {
    ghost use Rattle.std.specs.Prelude.{◌≡◌};
    ghost use Rattle.exports.specs.Replies.{place_told};

    ghost from_gives = { λ a r. r ≡ place_told a };

    fn from(a: Result<Option<Found>, Refusal>) -> Place {
        match a {
            Ok(Some(found)) => Place {
                refusal: 0,
                found: 1,
                offset: found.at.0,
                length: found.length,
            },
            Ok(None) => Place::default(),
            Err(x) => Place {
                refusal: x.number(),
                ..Place::default()
            },
        }
    }
}

/// Whether there is such a leaf, 1 or 0, where its low key and its upper key lie, its prefix length and its number of pairs. All but the
/// refusal is 0 where there is none, and so are the upper key's three fields where the leaf has none.
#[repr(C)]
#[derive(Debug, Clone, Copy, PartialEq, Eq, Default)]
pub struct Shown {
    pub refusal: usize,
    pub found: usize,
    pub low_offset: usize,
    pub low_length: usize,
    pub has_upper: usize,
    pub upper_offset: usize,
    pub upper_length: usize,
    pub prefix_length: usize,
    pub pairs: usize,
}

impl From<tree_get::Shown> for Shown {
    ghost use Rattle.std.specs.Prelude.{◌≡◌};
    ghost use Rattle.exports.specs.Replies.{upper_told};

    ghost from_gives = { λ leaf r. r ≡ upper_told leaf.upper leaf };

    fn from(leaf: tree_get::Shown) -> Shown {
        let shown = Shown {
            found: 1,
            low_offset: leaf.low.offset.0,
            low_length: leaf.low.length,
            prefix_length: leaf.prefix_length,
            pairs: leaf.pairs,
            ..Shown::default()
        };
        match leaf.upper {
            Some(upper) => Shown {
                has_upper: 1,
                upper_offset: upper.offset.0,
                upper_length: upper.length,
                ..shown
            },
            None => shown,
        }
    }
}

impl From<Result<Option<tree_get::Shown>, Refusal>> for Shown {
    ghost use Rattle.std.specs.Prelude.{◌≡◌};
    ghost use Rattle.exports.specs.Replies.{shown_told};

    ghost from_gives = { λ a r. r ≡ shown_told a };

    fn from(a: Result<Option<tree_get::Shown>, Refusal>) -> Shown {
        match a {
            Ok(Some(leaf)) => Shown::from(leaf),
            Ok(None) => Shown::default(),
            Err(x) => Shown {
                refusal: x.number(),
                ..Shown::default()
            },
        }
    }
}

/// Whether the index holds the key, 1 or 0 in `length`. Refused as 2 or 3.
pub fn olybzhan_contains_key_by_value(
    h: Header,
    dir: &[u32],
    slots: &[u64],
    arena: &[u8],
    key: &[u8],
) -> Told
    ensures { ContainsReply h dir.now slots.now arena.now key.now result }
{
    Told::from(contains_key(h, dir, slots, arena, key))
}

/// Where the key's value lies in the arena. Refused as 2 or 3.
pub fn olybzhan_get_by_value(
    h: Header,
    dir: &[u32],
    slots: &[u64],
    arena: &[u8],
    key: &[u8],
) -> Place
    ensures { GetReply h dir.now slots.now arena.now key.now result }
{
    Place::from(get(h, dir, slots, arena, key))
}

/// The leaf at a place of the leaf list, counted in key order from 0. Refused as 2.
pub fn olybzhan_leaf_at_by_value(
    h: Header,
    dir: &[u32],
    slots: &[u64],
    arena: &[u8],
    place: usize,
) -> Shown
    ensures { LeafReply h dir.now slots.now arena.now place result }
{
    Shown::from(leaf_at(h, dir, slots, arena, place))
}
