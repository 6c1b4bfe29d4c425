// An index made in lent buffers, made fresh again, and its pair count.
// (Header, directory, slots and arena stay apart in the parameters: document 01 lends them so, to callers in C and Rust too.)
#![tactic(auto)]

ghost use Rattle.std.specs.Prelude.{◌<◌, length};
ghost use Rattle.words.specs.Words.{low_key_slot};
ghost use Rattle.tree_create.specs.Outcomes.{MadeFresh, CreateOutcome, ClearOutcome, LenOutcome};

use layout::Header;
use leaf::Leaf;
use model::Refusal;
use tree_read::check::holds_index;
use tree_read::open::open;
use tree_read::sizes::sizes_met;
use words::{LowKey, Offset, low_key_slot, pack_directory, pack_low_key};

/// A changing call's answer, with the header as it then is.
#[derive(Debug, Clone, Copy, PartialEq, Eq)]
pub struct Answered {
    pub header: Header,
    pub answer: Result<(), Refusal>,
}

// L8: one leaf, pool number 0, low key empty, no pairs. All other words and bytes stay.
fn make_fresh(fanout: usize, dir: &mut [u32], slots: &mut [u64]) -> Header
    requires { (0 < fanout) × (0 < length dir.old) × (low_key_slot fanout 0 < length slots.old) }
    ensures { MadeFresh fanout dir.old slots.old dir.new slots.new result }
{
    let leaf = Leaf::empty(fanout);
    dir[0] = pack_directory(leaf.number, leaf.pairs);
    slots[low_key_slot(fanout, leaf.number).0] = pack_low_key(LowKey {
        offset: Offset(0),
        length: 0,
    });
    Header {
        fanout,
        leaves: 1,
        pairs: leaf.pairs,
        charge: 0,
    }
}

/// A fresh index in lent buffers, or `Refusal::Shape`. The arena is lent for its length alone.
pub fn create(fanout: usize, dir: &mut [u32], slots: &mut [u64], arena: &[u8]) -> Answered
    ensures { CreateOutcome fanout dir.old slots.old arena.now dir.new slots.new result }
{
    if !sizes_met(fanout, dir.len(), slots.len(), arena.len()) {
        return Answered {
            header: Header {
                fanout: 0,
                leaves: 0,
                pairs: 0,
                charge: 0,
            },
            answer: Err(Refusal::Shape),
        };
    }
    Answered {
        header: make_fresh(fanout, dir, slots),
        answer: Ok(()),
    }
}

/// The index made fresh again, or `Refusal::Damaged`.
pub fn clear(h: Header, dir: &mut [u32], slots: &mut [u64], arena: &[u8]) -> Answered
    ensures { ClearOutcome h dir.old slots.old arena.now dir.new slots.new result }
{
    if !holds_index(h, dir, slots, arena) {
        return Answered {
            header: h,
            answer: Err(Refusal::Damaged),
        };
    }
    Answered {
        header: make_fresh(h.fanout, dir, slots),
        answer: Ok(()),
    }
}

/// How many pairs the index has, or `Refusal::Damaged`.
pub fn len(h: Header, dir: &[u32], slots: &[u64], arena: &[u8]) -> Result<usize, Refusal>
    ensures { LenOutcome h dir.now slots.now arena.now result }
{
    Ok(open(h, dir, slots, arena)?.header.pairs)
}
