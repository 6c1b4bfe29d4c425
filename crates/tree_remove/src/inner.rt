// `remove` under its entry point: it presumes W less its clause on empty leaves.
// On parts, as what it calls: a struct with the index as its fact is plainer here, but each changing function that it calls would then stand twice.
ghost use Rattle.changes.specs.Outcomes.{lent};
ghost use Rattle.layout.specs.Presumed.{Index};
ghost use Rattle.order.specs.Bytes.{Bytes};
ghost use Rattle.pair_edit.specs.PairEdits.{CanRemove};
ghost use Rattle.tree_remove.specs.Outcomes.{FoundAsked, RemoveInner, TakesOut};

use changes::{Changed, write_old};
use layout::Header;
use layout::lent::View;
use leaf::Leaf;
use merge::merge_leaf;
use model::Refusal;
use pair_edit::remove_pair;
use spots::{Spot, read_spot, seek};
use words::pair_count;

// L7: a leaf that loses its last pair and has an upper key takes its right neighbour's pairs; one without an upper key may stay empty.
fn take_pair(h: Header, dir: &mut [u32], slots: &mut [u64], arena: &mut [u8], t: Spot) -> Header
    requires { CanRemove h dir.old slots.old arena.old t }
    ensures { (k : Bytes) → TakesOut h dir.old slots.old arena.old k t result dir.new slots.new arena.new }
{
    let j = t.leaf;
    let r = remove_pair(h, dir, slots, arena, t);
    let is_empty = pair_count(dir[j]) == 0;
    if is_empty && j + 1 < r.leaves {
        return merge_leaf(r, dir, slots, arena, j);
    }
    r
}

// The key has a pair: refusal 5, or its value written before any byte moves.
fn remove_found(
    h: Header,
    dir: &mut [u32],
    slots: &mut [u64],
    arena: &mut [u8],
    key: &[u8],
    t: Spot,
    out: &mut [u8],
) -> Changed
    requires { FoundAsked h dir.old slots.old arena.old key.now t }
    ensures { RemoveInner h key.now (lent dir.old slots.old arena.old out.old) result (lent dir.new slots.new arena.new out.new) }
{
    let view = View::new(h, dir, slots, arena);
    let x = read_spot(&view, t);
    if out.len() < x.slot.value {
        return Changed {
            header: h,
            old: Err(Refusal::ShortOutput(x.slot.value)),
        };
    }
    let old = write_old(&view, t, out);
    let header = take_pair(h, dir, slots, arena, t);
    Changed {
        header,
        old: Ok(Some(old)),
    }
}

pub fn remove(
    h: Header,
    dir: &mut [u32],
    slots: &mut [u64],
    arena: &mut [u8],
    key: &[u8],
    out: &mut [u8],
) -> Changed
    requires { Index h dir.old slots.old arena.old }
    ensures { RemoveInner h key.now (lent dir.old slots.old arena.old out.old) result (lent dir.new slots.new arena.new out.new) }
{
    if Leaf::long_key(key.len()) {
        return Changed {
            header: h,
            old: Err(Refusal::LongKey),
        };
    }
    let view = View::new(h, dir, slots, arena);
    match seek(&view, key) {
        Ok(t) => remove_found(h, dir, slots, arena, key, t, out),
        Err(_) => Changed {
            header: h,
            old: Ok(None),
        },
    }
}
