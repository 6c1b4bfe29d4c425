// The lowest pool number that no leaf has. One pass over the directory marks the numbers in use in a set of 4,096 bits; one over the set
// finds the first that is not marked.
#![tactic(auto)]

ghost use Rattle.std.specs.Prelude.{◌<◌, ◌≤◌, length, ◌≡◌};
ghost use Rattle.lists.specs.Exact.{Exact};
ghost use Rattle.numbers.specs.Bits.{FirstUnmarked, Sets, bit_of};
ghost use Rattle.numbers.specs.Free.{FreeRead};

use words::{LeafNo, leaf_number};

const NUMBERS: usize = 4096;

const WORD_BITS: usize = 64;

fn has_bit(w: u64, b: usize) -> bool
    requires { b < 64 }
    ensures { Exact result (bit_of w b ≡ 1) }
{
    (w >> b) % 2 == 1
}

fn with_bit(w: u64, b: usize) -> u64
    requires { b < 64 }
    ensures { Sets w b result }
{
    w | 1u64 << b
}

fn first_unmarked(seen: &[u64; 64]) -> usize
    ensures { FirstUnmarked seen.now result }
{
    for i in 0..NUMBERS {
        if !has_bit(seen[i / WORD_BITS], i % WORD_BITS) {
            return i;
        }
    }
    NUMBERS
}

// L6. With all 4,096 numbers in use it is 4,096, which no leaf has either.
pub fn lowest_free(dir: &[u32], leaves: usize) -> LeafNo
    requires { leaves ≤ length dir.now }
    ensures { FreeRead leaves dir.now result.0 }
{
    let mut seen = [0u64; 64];
    for &word in &dir[..leaves] {
        let n = leaf_number(word).0;
        let at = n / WORD_BITS;
        seen[at] = with_bit(seen[at], n % WORD_BITS);
    }
    LeafNo(first_unmarked(&seen))
}
