// The script program's commands that read an index, and `new`: each makes its call and writes the answer. (Header and buffers stay apart, as the
// entry points take them; a lent output and a place in it, since a `String` could run out of memory, and these can't fail.)
#![tactic(auto)]

ghost use Rattle.std.specs.Prelude.{◌≡◌, ◌+◌, ◌≤◌, length};
ghost use Rattle.answers.specs.Answers.{Wrote};
ghost use Rattle.leaf.specs.Keys.{KeyAt, UpperAt, key_at, upper_at};
ghost use Rattle.model.specs.Answers.{create_answer};
ghost use Rattle.replies.specs.Leaves.{ViewAsked, bytes_of, line_said, viewed};
ghost use Rattle.replies.specs.Replies.{NewReply, NextReply, ReadAsked, ReadReply, get_said, new_said, next_said};
ghost use Rattle.replies.specs.Texts.{leaf_text, leaves_text, refusal_text};

use answers::{Answer, Leaf, write};
use layout::Header;
use model::{Bound, Range, Refusal};
use tree_create::create;
use tree_get::{Shown, get, get_value, leaf_at};
use tree_range::{get_gt, range_value};
use words::LowKey;

/// What a `new` left: the header of the fresh index, unless it was refused, and the place behind what was written.
#[derive(Debug, Clone, Copy, PartialEq, Eq)]
pub struct Opened {
    pub header: Option<Header>,
    pub at: usize,
}

/// A refusal is answered by its number.
pub fn refuse(x: Refusal, out: &mut [u8], at: usize) -> usize
    requires { at + length (refusal_text x) ≤ length out.old }
    ensures { Wrote out.old out.new at (refusal_text x) result }
{
    write(out, at, Answer::Refused(x.number()))
}

// `new`, in buffers lent at their sizes.
pub fn reply_new(
    fanout: usize,
    dir: &mut [u32],
    slots: &mut [u64],
    arena: &[u8],
    out: &mut [u8],
    at: usize,
) -> Opened
    requires { at + length (new_said fanout dir.old slots.old arena.now) ≤ length out.old }
    ensures { NewReply (create_answer fanout (length dir.old) (length slots.old) (length arena.now)) fanout dir.old slots.old arena.now out.old at dir.new slots.new out.new result }
{
    let r = create(fanout, dir, slots, arena);
    match r.answer {
        Ok(()) => Opened {
            header: Some(r.header),
            at: write(out, at, Answer::Made),
        },
        Err(x) => Opened {
            header: None,
            at: refuse(x, out, at),
        },
    }
}

// `get`
pub fn reply_get(
    h: Header,
    dir: &[u32],
    slots: &[u64],
    arena: &[u8],
    key: &[u8],
    out: &mut [u8],
    at: usize,
) -> usize
    requires { ReadAsked h dir.now slots.now arena.now (get_said key.now) out.old at }
    ensures { ReadReply h dir.now slots.now arena.now (get_said key.now) out.old at out.new result }
{
    match get(h, dir, slots, arena, key) {
        Ok(Some(_)) => {
            let value = get_value(h, dir, slots, arena, key);
            write(out, at, Answer::Value(value))
        },
        Ok(None) => write(out, at, Answer::Nothing),
        Err(x) => refuse(x, out, at),
    }
}

// `next`: the found key goes to a buffer of its own first.
pub fn reply_next(
    h: Header,
    dir: &[u32],
    slots: &[u64],
    arena: &[u8],
    key: &[u8],
    found: &mut [u8],
    out: &mut [u8],
    at: usize,
) -> usize
    requires { ReadAsked h dir.now slots.now arena.now (next_said key.now (length found.old)) out.old at }
    ensures { NextReply h dir.now slots.now arena.now key.now found.old out.old at found.new out.new result }
{
    match get_gt(h, dir, slots, arena, key, found) {
        Ok(Some(x)) => {
            let above = Range {
                start: Bound::Excluded,
                end: Bound::Open,
            };
            let value = range_value(h, dir, slots, arena, above, key, key);
            write(out, at, Answer::Pair(&found[..x.key], value))
        }
        Ok(None) => write(out, at, Answer::End),
        Err(x) => refuse(x, out, at),
    }
}

fn key_of(arena: &[u8], k: LowKey) -> &[u8]
    requires { KeyAt arena.now 0 k }
    ensures { result.now ≡ key_at arena.now k }
{
    let from = k.offset.0;
    &arena[from..from + k.length]
}

fn upper_of(arena: &[u8], upper: Option<LowKey>) -> Option<&[u8]>
    requires { UpperAt arena.now 0 upper }
    ensures { bytes_of result ≡ upper_at arena.now upper }
{
    match upper {
        Some(k) => Some(key_of(arena, k)),
        None => None,
    }
}

// One line of `leaves`.
fn write_view(arena: &[u8], v: Shown, out: &mut [u8], at: usize) -> usize
    requires { ViewAsked arena.now v out.old at }
    ensures { Wrote out.old out.new at (leaf_text (viewed arena.now v)) result }
{
    let leaf = Leaf {
        low: key_of(arena, v.low),
        upper: upper_of(arena, v.upper),
        prefix: v.prefix_length,
        pairs: v.pairs,
    };
    write(out, at, Answer::Leaf(leaf))
}

// The line of one place, nothing behind the last leaf.
fn reply_leaf(
    h: Header,
    dir: &[u32],
    slots: &[u64],
    arena: &[u8],
    place: usize,
    out: &mut [u8],
    at: usize,
) -> usize
    requires { ReadAsked h dir.now slots.now arena.now (line_said place) out.old at }
    ensures { ReadReply h dir.now slots.now arena.now (line_said place) out.old at out.new result }
{
    match leaf_at(h, dir, slots, arena, place) {
        Ok(Some(v)) => write_view(arena, v, out, at),
        Ok(None) => at,
        Err(x) => refuse(x, out, at),
    }
}

// `leaves`: a line for each leaf.
pub fn reply_leaves(
    h: Header,
    dir: &[u32],
    slots: &[u64],
    arena: &[u8],
    out: &mut [u8],
    at: usize,
) -> usize
    requires { ReadAsked h dir.now slots.now arena.now leaves_text out.old at }
    ensures { ReadReply h dir.now slots.now arena.now leaves_text out.old at out.new result }
{
    let mut e = at;
    for place in 0..h.leaves {
        e = reply_leaf(h, dir, slots, arena, place, out, e);
    }
    e
}
