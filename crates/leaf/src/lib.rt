// The leaf's own type: its constructor and document 01's limits on keys, values and fanout. Its upper key and prefix length. What
// the search in its slots answers.
#![tactic(auto)]

ghost use Rattle.std.specs.Prelude.{◌<◌, ◌≤◌};
ghost use Rattle.lists.specs.Exact.{Exact};
ghost use Rattle.model.specs.Limits.{key_limit, value_limit, fanout_least, fanout_limit};
ghost use Rattle.leaf.specs.Leaf.{IsEmpty};
ghost use Rattle.leaf.specs.Keys.{KeyAt, UpperAt, PrefixOf};

use order::common;
use words::{LeafNo, LowKey};

pub mod search;

// A leaf by value: its number in the pool, its fanout, how many pairs it has, and its prefix length.
#[derive(Clone, Copy)]
pub struct Leaf {
    pub number: LeafNo,
    pub fanout: usize,
    pub pairs: usize,
    pub prefix_length: usize,
}

impl Leaf {
    pub const KEY_LIMIT: usize = 512;

    pub const VALUE_LIMIT: usize = 65535;

    pub const FANOUT_LEAST: usize = 3;

    pub const FANOUT_LIMIT: usize = 64;

    // The fresh index's leaf (L8).
    pub fn empty(fanout: usize) -> Leaf
        ensures { IsEmpty fanout result }
    {
        Leaf {
            number: LeafNo(0),
            fanout,
            pairs: 0,
            prefix_length: 0,
        }
    }

    pub fn long_key(length: usize) -> bool
        ensures { Exact result (key_limit < length) }
    {
        Leaf::KEY_LIMIT < length
    }

    pub fn long_value(length: usize) -> bool
        ensures { Exact result (value_limit < length) }
    {
        Leaf::VALUE_LIMIT < length
    }

    pub fn fanout_met(fanout: usize) -> bool
        ensures { Exact result ((fanout_least ≤ fanout) × (fanout ≤ fanout_limit)) }
    {
        (Leaf::FANOUT_LEAST..=Leaf::FANOUT_LIMIT).contains(&fanout)
    }
}

// L2: where the leaf has no upper key, the prefix length stays 0.
pub fn prefix_length(arena: &[u8], low: LowKey, upper: Option<LowKey>) -> usize
    requires { KeyAt arena.now 0 low × UpperAt arena.now 0 upper }
    ensures { PrefixOf arena.now low upper result }
{
    let Some(u) = upper else {
        return 0;
    };
    let i = low.offset.0;
    let j = u.offset.0;
    common(&arena[i..i + low.length], &arena[j..j + u.length])
}
