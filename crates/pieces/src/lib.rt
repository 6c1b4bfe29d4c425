// A key in two pieces, its leaf's prefix and its own suffix: compared with a whole key, and written out.
#![tactic(auto)]

ghost use Rattle.std.specs.Prelude.{◌≡◌, ◌++◌, ◌+◌, ◌≤◌, length};
ghost use Rattle.lists.specs.Part.{put};
ghost use Rattle.order.specs.Compared.{Compared};

use moves::copy_into;
use order::compare;
use std::cmp::Ordering;

// A whole key may be shorter than the prefix, or differ within it: only behind an equal front does the suffix count.
pub fn compare_pieces(prefix: &[u8], suffix: &[u8], key: &[u8]) -> Ordering
    ensures { Compared (prefix.now ++ suffix.now) key.now result }
{
    let p = prefix.len();
    if key.len() < p {
        return compare(prefix, key);
    }
    compare(prefix, &key[..p]).then_with(|| compare(suffix, &key[p..]))
}

// Prefix, then suffix, at the output's front; the rest of the output stays.
pub fn write_pieces(prefix: &[u8], suffix: &[u8], out: &mut [u8])
    requires { length prefix.now + length suffix.now ≤ length out.old }
    ensures { out.new ≡ put out.old 0 (prefix.now ++ suffix.now) }
{
    let p = prefix.len();
    copy_into(out, 0, prefix);
    copy_into(&mut out[p..], 0, suffix);
}
