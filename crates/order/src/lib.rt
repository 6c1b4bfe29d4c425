// Byte-string order, as Rust documents it for slices: lexicographic and unsigned. And the count of equal leading bytes, which leaf.rs
// takes by `zip .. take_while .. count` in `split_if_full`, `shorten_keys_after_split` and `merge_from`.
#![tactic(auto)]

ghost use Rattle.std.specs.Prelude.{◌≡◌};
ghost use Rattle.order.specs.Bytes.{common};
ghost use Rattle.order.specs.Compared.{Compared};

use std::cmp::Ordering;

const FEW: usize = 4;

// Out of line, so that `compare` is small enough to stand in its callers' loops.
#[inline(never)]
fn compare_whole(a: &[u8], b: &[u8]) -> Ordering
    ensures { Compared a.now b.now result }
{
    a.cmp(b)
}

pub fn compare(a: &[u8], b: &[u8]) -> Ordering
    ensures { Compared a.now b.now result }
{
    // Most strings that are compared here differ in their first bytes or end there, and then a call would be most of the cost.
    for i in 0..FEW {
        if i == a.len() || i == b.len() {
            return a.len().cmp(&b.len());
        }
        if a[i] != b[i] {
            return a[i].cmp(&b[i]);
        }
    }
    compare_whole(a, b)
}

pub fn common(a: &[u8], b: &[u8]) -> usize
    ensures { result ≡ common a.now b.now }
{
    a.iter().zip(b).take_while(|(x, y)| x == y).count()
}
