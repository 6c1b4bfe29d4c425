// An index opened: the test of W, and the view of what was lent. (Header and buffers come apart, as document 01 lends them.)
ghost use Rattle.tree_read.specs.Opened.{Opened};

use crate::check::holds_index;
use layout::Header;
use layout::lent::View;
use model::Refusal;

/// The index that the lent buffers hold, or `Refusal::Damaged`. The view remembers that W was tested.
pub fn open<'a>(
    h: Header,
    dir: &'a [u32],
    slots: &'a [u64],
    arena: &'a [u8],
) -> Result<View<'a>, Refusal>
    ensures { Opened h dir.now slots.now arena.now result }
{
    if !holds_index(h, dir, slots, arena) {
        return Err(Refusal::Damaged);
    }
    Ok(View::new(h, dir, slots, arena))
}
