// What `insert` and `remove` hand back, and the old value written to the lent output.
#![tactic(auto)]

ghost use Rattle.layout.specs.Viewed.{leaves_of};
ghost use Rattle.changes.specs.Outcomes.{CanWriteOld, WroteOld};

use layout::Header;
use layout::lent::View;
use model::Refusal;
use moves::copy_into;
use spots::{Spot, read_spot};

/// A changing call's answer, with the header as it then is: the old value's length in bytes, if the key had a value, or why nothing was changed.
#[derive(Debug, Clone, Copy, PartialEq, Eq)]
pub struct Changed {
    pub header: Header,
    pub old: Result<Option<usize>, Refusal>,
}

// The value of the pair at the spot, written to the output's front before any byte of the arena moves; its length.
pub fn write_old(v: &View<'_>, t: Spot, out: &mut [u8]) -> usize
    requires { CanWriteOld v.now t out.old }
    ensures { WroteOld t out.old result out.new (leaves_of v.now) }
{
    let x = read_spot(v, t);
    let start = x.slot.offset.0 + x.slot.suffix;
    let end = start + x.slot.value;
    copy_into(out, 0, &v.arena[start..end]);
    x.slot.value
}
