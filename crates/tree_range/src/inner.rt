// What the calls do once W is tested: they read a view.
// (A range and the keys beside its bounds stay three parameters, the form of document 01.)
ghost use Rattle.std.specs.Prelude.{◌≡◌};
ghost use Rattle.spots.specs.Spots.{SpotIn};
ghost use Rattle.tree_range.specs.Outcomes.{FoundInner, RangeInner, RangeValueInner, ShowInner, ValueInner};

use crate::Seen;
use crate::bounds::{inverted, long_bound};
use crate::start::{before_end, start_spot};
use layout::lent::View;
use model::{Range, Refusal};
use pieces::write_pieces;
use spots::{Spot, next_spot, read_spot};
use words::Offset;

// Where the first pair in the range lies.
pub fn found(v: &View<'_>, range: Range, start: &[u8], end: &[u8]) -> Result<Option<Spot>, Refusal>
    ensures { FoundInner v.now range start.now end.now result }
{
    if long_bound(range.start, start) || long_bound(range.end, end) {
        return Err(Refusal::LongKey);
    }
    if inverted(range, start, end) {
        return Err(Refusal::InvertedRange);
    }
    let s = start_spot(v, range.start, start);
    let Some(t) = next_spot(v.header.leaves, v.dir, s) else {
        return Ok(None);
    };
    if !before_end(v, t, range.end, end) {
        return Ok(None);
    }
    Ok(Some(t))
}

// A pair shown: its key written in two pieces, prefix then suffix, where the output has room for it.
pub fn show(v: &View<'_>, t: Spot, out: &mut [u8]) -> Result<Seen, Refusal>
    requires { SpotIn v.now.header v.now.dir.now v.now.slots.now v.now.arena.now t }
    ensures { ShowInner v.now t out.old out.new result }
{
    let pair = read_spot(v, t);
    let s = pair.slot;
    let length = pair.prefix + s.suffix;
    if out.len() < length {
        return Err(Refusal::ShortOutput(length));
    }
    let low = pair.low.0;
    let from = s.offset.0;
    let end = from + s.suffix;
    write_pieces(&v.arena[low..low + pair.prefix], &v.arena[from..end], out);
    Ok(Seen {
        key: length,
        place: Offset(end),
        value: s.value,
    })
}

pub fn first_in_range(
    v: &View<'_>,
    range: Range,
    start: &[u8],
    end: &[u8],
    out: &mut [u8],
) -> Result<Option<Seen>, Refusal>
    ensures { RangeInner v.now range start.now end.now out.old out.new result }
{
    let Some(t) = found(v, range, start, end)? else {
        return Ok(None);
    };
    Ok(Some(show(v, t, out)?))
}

// The value of the pair at a spot, in the arena that the view reads. The arena is lent once more beside the view: what is handed back
// lives as long as it, and as a part of the view only as long as the directory and the slots too.
fn value_at<'a>(v: &View<'_>, arena: &'a [u8], t: Spot) -> &'a [u8]
    requires there { SpotIn v.now.header v.now.dir.now v.now.slots.now v.now.arena.now t }
    requires same_arena { arena.now ≡ v.now.arena.now }
    ensures { ValueInner v.now t result.now }
{
    let s = read_spot(v, t).slot;
    let from = s.offset.0 + s.suffix;
    &arena[from..from + s.value]
}

pub fn range_value<'a>(
    v: &View<'_>,
    arena: &'a [u8],
    range: Range,
    start: &[u8],
    end: &[u8],
) -> &'a [u8]
    requires { arena.now ≡ v.now.arena.now }
    ensures { RangeValueInner v.now range start.now end.now result.now }
{
    match found(v, range, start, end) {
        Ok(Some(t)) => value_at(v, arena, t),
        Ok(None) => &arena[0..0],
        Err(_) => &arena[0..0],
    }
}
