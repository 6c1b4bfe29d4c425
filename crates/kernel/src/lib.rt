// The changing calls with the header lent and changed in place, as the kernel holds it. Each is thin: it copies the header out, makes the call
// that takes it by value, and stores the header that it hands back.
// (Header, directory, slots and arena stay apart in the parameters: document 01 lends them so, to callers in C and Rust too.)
#![tactic(auto)]

ghost use Rattle.changes.specs.Outcomes.{lent};
ghost use Rattle.tree_create.specs.Outcomes.{ClearOutcome};
ghost use Rattle.tree_insert.specs.Outcomes.{InsertOutcome};
ghost use Rattle.tree_remove.specs.Outcomes.{RemoveOutcome};

use layout::Header;
use model::Refusal;

// A new pair, or a new value for a key that has one. Refused, the header is as it came.
pub fn insert(
    h: &mut Header,
    dir: &mut [u32],
    slots: &mut [u64],
    arena: &mut [u8],
    key: &[u8],
    value: &[u8],
    out: &mut [u8],
) -> Result<Option<usize>, Refusal>
    ensures { InsertOutcome h.old key.now value.now (lent dir.old slots.old arena.old out.old) (record { header = h.new; old = result }) (lent dir.new slots.new arena.new out.new) }
{
    let changed = tree_insert::insert(*h, dir, slots, arena, key, value, out);
    *h = changed.header;
    changed.old
}

// A key's pair taken out. Refused, or where the key has none, the header is as it came.
pub fn remove(
    h: &mut Header,
    dir: &mut [u32],
    slots: &mut [u64],
    arena: &mut [u8],
    key: &[u8],
    out: &mut [u8],
) -> Result<Option<usize>, Refusal>
    ensures { RemoveOutcome h.old key.now (lent dir.old slots.old arena.old out.old) (record { header = h.new; old = result }) (lent dir.new slots.new arena.new out.new) }
{
    let changed = tree_remove::remove(*h, dir, slots, arena, key, out);
    *h = changed.header;
    changed.old
}

// An index made fresh again. Refused, the header is as it came.
pub fn clear(
    h: &mut Header,
    dir: &mut [u32],
    slots: &mut [u64],
    arena: &[u8],
) -> Result<(), Refusal>
    ensures { ClearOutcome h.old dir.old slots.old arena.now dir.new slots.new (record { header = h.new; answer = result }) }
{
    let cleared = tree_create::clear(*h, dir, slots, arena);
    *h = cleared.header;
    cleared.answer
}
