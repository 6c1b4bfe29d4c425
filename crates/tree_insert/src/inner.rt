// `insert` under its entry point: judged first, and only what is accepted is written.
// On parts, as what it calls: a struct with the index as its fact is plainer here, but each changing function that it calls would then stand twice.
ghost use Rattle.changes.specs.Outcomes.{lent};
ghost use Rattle.layout.specs.Presumed.{Index};
ghost use Rattle.tree_insert.specs.Outcomes.{CanFit, CanReplaceOld, InsertInner, ReplacedOld, SplitIfFull};

use changes::{Changed, write_old};
use judge::{Fit, Half, Judged, judge};
use layout::Header;
use layout::lent::View;
use pair_edit::{insert_pair, remove_pair, replace_pair};
use split::split_leaf;
use spots::Spot;

// Where a new pair goes, in an index that has room for it.
#[derive(Debug, Clone, Copy, PartialEq, Eq)]
struct Placed {
    header: Header,
    spot: Spot,
}

// L3: where the new pair makes F pairs, its leaf is split before it is written, as planned on all F; then it goes to the half that owns it.
fn split_if_full(
    h: Header,
    dir: &mut [u32],
    slots: &mut [u64],
    arena: &mut [u8],
    key: &[u8],
    fit: Fit,
) -> Placed
    requires { CanFit h dir.old slots.old arena.old key.now fit }
    ensures { SplitIfFull h dir.old slots.old arena.old key.now fit result dir.new slots.new arena.new }
{
    match fit {
        Fit::Slack(spot) => Placed { header: h, spot },
        Fit::Full(p) => {
            let header = split_leaf(h, dir, slots, arena, key, p);
            let spot = match p.half {
                Half::Left(slot) => Spot { leaf: p.leaf, slot },
                Half::Right(slot) => Spot {
                    leaf: p.leaf + 1,
                    slot,
                },
            };
            Placed { header, spot }
        }
    }
}

// A value that is not longer goes where the old one lies; a longer one is put in as a new pair, the old one taken out first.
fn replace_old(
    h: Header,
    dir: &mut [u32],
    slots: &mut [u64],
    arena: &mut [u8],
    t: Spot,
    old: usize,
    key: &[u8],
    value: &[u8],
) -> Header
    requires { CanReplaceOld h dir.old slots.old arena.old key.now value.now t old }
    ensures { ReplacedOld h dir.old slots.old arena.old key.now value.now t old result dir.new slots.new arena.new }
{
    if value.len() <= old {
        return replace_pair(h, dir, slots, arena, t, value);
    }
    let r = remove_pair(h, dir, slots, arena, t);
    insert_pair(r, dir, slots, arena, t, key, value)
}

pub fn insert(
    h: Header,
    dir: &mut [u32],
    slots: &mut [u64],
    arena: &mut [u8],
    key: &[u8],
    value: &[u8],
    out: &mut [u8],
) -> Changed
    requires { Index h dir.old slots.old arena.old }
    ensures { InsertInner h key.now value.now (lent dir.old slots.old arena.old out.old) result (lent dir.new slots.new arena.new out.new) }
{
    let view = View::new(h, dir, slots, arena);
    match judge(&view, key, value, out.len()) {
        Err(refusal) => Changed {
            header: h,
            old: Err(refusal),
        },
        Ok(Judged::Replace(t)) => {
            let old = write_old(&view, t, out);
            let header = replace_old(h, dir, slots, arena, t, old, key, value);
            Changed {
                header,
                old: Ok(Some(old)),
            }
        }
        Ok(Judged::Insert(fit)) => {
            let placed = split_if_full(h, dir, slots, arena, key, fit);
            let header = insert_pair(placed.header, dir, slots, arena, placed.spot, key, value);
            Changed {
                header,
                old: Ok(None),
            }
        }
    }
}
