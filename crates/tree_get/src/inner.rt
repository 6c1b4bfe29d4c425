// What the calls do once W is tested: they read a view.
ghost use Rattle.tree_get.specs.Outcomes.{ContainsRead, GetRead, LeafSeen};

use crate::{Found, Shown};
use layout::lent::View;
use leaf::Leaf;
use model::Refusal;
use route::{leaf_of, low_key, upper_key};
use spots::{read_spot, seek};
use words::Offset;

pub fn get(v: &View<'_>, key: &[u8]) -> Result<Option<Found>, Refusal>
    ensures { GetRead v.now key.now result }
{
    if Leaf::long_key(key.len()) {
        return Err(Refusal::LongKey);
    }
    let Ok(t) = seek(v, key) else {
        return Ok(None);
    };
    let s = read_spot(v, t).slot;
    let found = Found {
        at: Offset(s.offset.0 + s.suffix),
        length: s.value,
    };
    Ok(Some(found))
}

pub fn contains_key(v: &View<'_>, key: &[u8]) -> Result<bool, Refusal>
    ensures { ContainsRead v.now key.now result }
{
    Ok(get(v, key)?.is_some())
}

pub fn leaf_at(v: &View<'_>, place: usize) -> Option<Shown>
    ensures { LeafSeen v.now place result }
{
    if v.header.leaves <= place {
        return None;
    }
    let low = low_key(v.header.fanout, v.slots, v.dir[place]);
    let upper = upper_key(v.header, v.dir, v.slots, place);
    let leaf = leaf_of(v, place);
    Some(Shown {
        low,
        upper,
        prefix_length: leaf.prefix_length,
        pairs: leaf.pairs,
    })
}
