// `remove`: a key's pair taken out, its value written to the lent output. A leaf left empty is merged with its right neighbour (L7).
// (Header, directory, slots and arena stay apart in the parameters: document 01 lends them so, to callers in C and Rust too.)
#![tactic(auto)]

ghost use Rattle.changes.specs.Outcomes.{lent};
ghost use Rattle.tree_remove.specs.Outcomes.{RemoveOutcome};

pub mod inner;

use changes::Changed;
use layout::Header;
use model::Refusal;
use tree_read::check::holds_index;

pub fn remove(
    h: Header,
    dir: &mut [u32],
    slots: &mut [u64],
    arena: &mut [u8],
    key: &[u8],
    out: &mut [u8],
) -> Changed
    ensures { RemoveOutcome h key.now (lent dir.old slots.old arena.old out.old) result (lent dir.new slots.new arena.new out.new) }
{
    if !holds_index(h, dir, slots, arena) {
        return Changed {
            header: h,
            old: Err(Refusal::Damaged),
        };
    }
    inner::remove(h, dir, slots, arena, key, out)
}
