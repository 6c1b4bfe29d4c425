// `insert`: a new pair, or a new value for a key that has one. The old value is written to the lent output.
// (Header, directory, slots and arena stay apart in the parameters: document 01 lends them so, to callers in C and Rust too.)
#![tactic(auto)]

ghost use Rattle.changes.specs.Outcomes.{lent};
ghost use Rattle.tree_insert.specs.Outcomes.{InsertOutcome};

pub mod inner;

use changes::Changed;
use layout::Header;
use model::Refusal;
use tree_read::check::holds_index;

pub fn insert(
    h: Header,
    dir: &mut [u32],
    slots: &mut [u64],
    arena: &mut [u8],
    key: &[u8],
    value: &[u8],
    out: &mut [u8],
) -> Changed
    ensures { InsertOutcome h key.now value.now (lent dir.old slots.old arena.old out.old) result (lent dir.new slots.new arena.new out.new) }
{
    if !holds_index(h, dir, slots, arena) {
        return Changed {
            header: h,
            old: Err(Refusal::Damaged),
        };
    }
    inner::insert(h, dir, slots, arena, key, value, out)
}
