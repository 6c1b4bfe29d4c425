// Where a scan begins, and whether the pair found there is before the end.
ghost use Rattle.std.specs.Prelude.{◌≡◌, ◌<◌, ◌^◌};
ghost use Rattle.model.specs.Scans.{Closed};
ghost use Rattle.spots.specs.Spots.{SpotIn};
ghost use Rattle.tree_range.specs.Scans.{Begins, ComparesTo, EndsBefore, slot_at};

use layout::lent::View;
use leaf::search::find;
use model::Bound;
use pieces::compare_pieces;
use route::{leaf_of, owner};
use spots::{Spot, read_spot};
use std::cmp::Ordering;

// The slot from which a leaf's pairs are past the start, by where the start stands in the leaf.
fn slot_from(kind: Bound, place: Result<usize, usize>) -> usize
    requires { slot_at kind place < 2 ^ 64 }
    ensures { result ≡ slot_at kind place }
{
    match (kind, place) {
        (_, Err(i)) => i,
        (Bound::Included, Ok(i)) => i,
        (Bound::Excluded, Ok(i)) => i + 1,
        (Bound::Open, Ok(_)) => 0,
    }
}

// A start with a key: the leaf that owns it, and its place there. Only a routed key is cut at the leaf's prefix length.
fn keyed_spot(v: &View<'_>, kind: Bound, start: &[u8]) -> Spot
    requires { Closed kind }
    ensures { Begins v.now kind start.now result }
{
    let j = owner(v, start);
    let leaf = leaf_of(v, j);
    let p = leaf.prefix_length;
    Spot {
        leaf: j,
        slot: slot_from(kind, find(v.slots, v.arena, leaf, &start[p..])),
    }
}

pub fn start_spot(v: &View<'_>, kind: Bound, start: &[u8]) -> Spot
    ensures { Begins v.now kind start.now result }
{
    match kind {
        Bound::Open => Spot { leaf: 0, slot: 0 },
        Bound::Included | Bound::Excluded => keyed_spot(v, kind, start),
    }
}

// A bound need not begin with the leaf's prefix: the whole key is compared, piece by piece.
fn compare_spot(v: &View<'_>, t: Spot, key: &[u8]) -> Ordering
    requires { SpotIn v.now.header v.now.dir.now v.now.slots.now v.now.arena.now t }
    ensures { ComparesTo v.now t key.now result }
{
    let pair = read_spot(v, t);
    let low = pair.low.0;
    let from = pair.slot.offset.0;
    compare_pieces(
        &v.arena[low..low + pair.prefix],
        &v.arena[from..from + pair.slot.suffix],
        key,
    )
}

// Whether the pair at a spot is before the end; the key beside an open end isn't read.
pub fn before_end(v: &View<'_>, t: Spot, kind: Bound, end: &[u8]) -> bool
    requires { SpotIn v.now.header v.now.dir.now v.now.slots.now v.now.arena.now t }
    ensures { EndsBefore v.now t kind end.now result }
{
    match kind {
        Bound::Open => true,
        Bound::Included => compare_spot(v, t, end).is_le(),
        Bound::Excluded => compare_spot(v, t, end).is_lt(),
    }
}
