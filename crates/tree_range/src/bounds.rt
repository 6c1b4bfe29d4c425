// What a range's two bounds decide by themselves: refusals 3 and 6. The key beside an open bound isn't read.
ghost use Rattle.std.specs.Prelude.{◌≡◌};
ghost use Rattle.model.specs.Answers.{both_keyed, inverted, long_bound};

use leaf::Leaf;
use model::{Bound, Range};
use order::compare;

pub fn long_bound(kind: Bound, key: &[u8]) -> bool
    ensures { result ≡ long_bound kind key.now }
{
    keyed(kind) && Leaf::long_key(key.len())
}

fn keyed(kind: Bound) -> bool
    ensures { result ≡ both_keyed kind Bound.Included }
{
    matches!(kind, Bound::Included | Bound::Excluded)
}

// The only test of refusal 6.
pub fn inverted(range: Range, start: &[u8], end: &[u8]) -> bool
    ensures { result ≡ inverted range start.now end.now }
{
    keyed(range.start) && keyed(range.end) && compare(start, end).is_gt()
}
