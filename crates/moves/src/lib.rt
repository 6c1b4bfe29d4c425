// Elements moved inside one lent buffer, whatever they are: bytes of the arena, words of the slot buffer, entries of the directory; elements
// copied into a part of one, and a number added to a range of words. Each contract gives the whole buffer at exit.
#![tactic(auto)]

ghost use Rattle.std.specs.Prelude.{◌≡◌, map, ℕ, ◌+◌, ◌^◌, ◌≤◌, ◌<◌, length, get_or};
ghost use Rattle.lists.specs.Part.{part, put};

/// The n elements from `from` on, written over those from `to` on, wherever the two places lie.
pub fn move_within<T: Copy>(a: &mut [T], from: usize, n: usize, to: usize)
    requires { (from + n ≤ length a.old) × (to + n ≤ length a.old) }
    ensures { a.new ≡ put a.old to (part a.old from n) }
{
    // Packing asks for each part, and most stand at their place already.
    if from != to {
        a.copy_within(from..from + n, to);
    }
}

/// s written over the elements from `to` on.
pub fn copy_into<T: Copy>(a: &mut [T], to: usize, s: &[T])
    requires { to + length s.now ≤ length a.old }
    ensures { a.new ≡ put a.old to s.now }
{
    for (i, &x) in s.iter().enumerate() {
        a[to + i] = x;
    }
}

/// k added to each of the n words from `from` on.
pub fn raise(a: &mut [u64], from: usize, n: usize, k: u64)
    requires { (from + n ≤ length a.old) × ((j : ℕ) → from ≤ j → j < from + n → get_or a.old j 0 + k < 2 ^ 64) }
    ensures { a.new ≡ put a.old from (map (λ (x : ℕ). x + k) (part a.old from n)) }
{
    for i in from..from + n {
        a[i] += k;
    }
}
