// The range of a prefix: from the prefix, included, to its end, excluded, or open. It takes no index.
#![tactic(auto)]

ghost use Rattle.std.specs.Prelude.{◌≡◌, ◌<◌, ◌≤◌, length};
ghost use Rattle.lists.specs.Part.{put};
ghost use Rattle.model.specs.Prefix.{prefix_end};
ghost use Rattle.prefixes.specs.End.{Stripped, end_bytes};
ghost use Rattle.prefixes.specs.Outcome.{PrefixOutcome};

use leaf::Leaf;
use model::{Bound, Range, Refusal};
use moves::copy_into;

// The range of a prefix, and how many bytes of its end key were written: 0 where the end is open, which the range's kind says.
#[derive(Debug, Clone, Copy, PartialEq, Eq)]
pub struct Span {
    pub range: Range,
    pub end: usize,
}

// The length of the prefix without its trailing FF bytes: 0 exactly where the end is open.
fn end_length(prefix: &[u8]) -> usize
    ensures { Stripped prefix.now result }
{
    for n in (0..prefix.len()).rev() {
        if prefix[n] != 0xff {
            return n + 1;
        }
    }
    0
}

// The first n bytes of the prefix, the last of them raised by one: it is not FF, so the sum fits.
fn write_end(prefix: &[u8], n: usize, out: &mut [u8])
    requires { (0 < n) × (n ≤ length out.old) × Stripped prefix.now n }
    ensures { out.new ≡ put out.old 0 (end_bytes (prefix_end prefix.now)) }
{
    let last = n - 1;
    copy_into(out, 0, &prefix[..last]);
    out[last] = prefix[last] + 1;
}

pub fn scan_prefix(prefix: &[u8], out: &mut [u8]) -> Result<Span, Refusal>
    ensures { PrefixOutcome prefix.now out.old out.new result }
{
    if Leaf::long_key(prefix.len()) {
        return Err(Refusal::LongKey);
    }
    let n = end_length(prefix);
    if out.len() < n {
        return Err(Refusal::ShortOutput(n));
    }
    if n == 0 {
        return Ok(Span {
            range: Range {
                start: Bound::Included,
                end: Bound::Open,
            },
            end: 0,
        });
    }
    write_end(prefix, n, out);
    Ok(Span {
        range: Range {
            start: Bound::Included,
            end: Bound::Excluded,
        },
        end: n,
    })
}
