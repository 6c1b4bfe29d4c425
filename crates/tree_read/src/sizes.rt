// Document 01's sizes of the lent buffers: what creation refuses as 1, and W's first clause.
ghost use Rattle.lists.specs.Exact.{Exact};
ghost use Rattle.model.specs.Limits.{Sizes, pool_least, pool_limit, arena_limit};
ghost use Rattle.std.specs.Prelude.{◌≤◌};

use leaf::Leaf;

const POOL_LEAST: usize = 1;

const POOL_LIMIT: usize = 4096;

const ARENA_LIMIT: usize = 1048576;

fn pool_met(pool: usize) -> bool
    ensures { Exact result ((pool_least ≤ pool) × (pool ≤ pool_limit)) }
{
    (POOL_LEAST..=POOL_LIMIT).contains(&pool)
}

fn arena_met(arena: usize) -> bool
    ensures { Exact result (arena ≤ arena_limit) }
{
    arena <= ARENA_LIMIT
}

// Fanout and pool are tested before their product is taken.
pub fn sizes_met(fanout: usize, pool: usize, slots: usize, arena: usize) -> bool
    ensures { Exact result (Sizes fanout pool slots arena) }
{
    Leaf::fanout_met(fanout) && pool_met(pool) && slots == fanout * pool && arena_met(arena)
}
