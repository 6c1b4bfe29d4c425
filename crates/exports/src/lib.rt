// The calls for Rust and C: numbers, slices and structs of numbers. A slice is two arguments, its pointer and its length. The header
// comes and goes by value where the end of a name says so; the changing calls of module `in_place` take it lent, as a pointer.
// (Numbers for refusals and kinds, yes or no as 1 or 0, four parameters for an index: the C interface.)
#![tactic(auto)]

ghost use Rattle.lists.specs.Exact.{Exact};
ghost use Rattle.layout.specs.Lays.{W};
ghost use Rattle.exports.specs.Replies.{CreateReply, ClearReply, LenReply};

use layout::Header;
use model::Refusal;
use tree_create::{Answered, clear, create, len};
use tree_read::check::holds_index;

pub mod in_place;
pub mod reads;
pub mod scans;
pub mod writes;

/// A refusal's number and the length in bytes that it also returns, or 0 and the call's own number.
#[repr(C)]
#[derive(Debug, Clone, Copy, PartialEq, Eq, Default)]
pub struct Told {
    pub refusal: usize,
    pub length: usize,
}

impl From<Refusal> for Told {
    ghost use Rattle.std.specs.Prelude.{◌≡◌};
    ghost use Rattle.exports.specs.Replies.{refusal_told};

    ghost from_gives = { λ x r. r ≡ refusal_told x };

    fn from(x: Refusal) -> Told {
        Told {
            refusal: x.number(),
            length: x.length().unwrap_or(0),
        }
    }
}

impl From<Result<(), Refusal>> for Told {
    ghost use Rattle.std.specs.Prelude.{◌≡◌};
    ghost use Rattle.exports.specs.Replies.{change_told};

    ghost from_gives = { λ a r. r ≡ change_told a };

    fn from(a: Result<(), Refusal>) -> Told {
        match a {
            Ok(()) => Told::default(),
            Err(x) => Told::from(x),
        }
    }
}

impl From<Result<usize, Refusal>> for Told {
    ghost use Rattle.std.specs.Prelude.{◌≡◌};
    ghost use Rattle.exports.specs.Replies.{length_told};

    ghost from_gives = { λ a r. r ≡ length_told a };

    fn from(a: Result<usize, Refusal>) -> Told {
        match a {
            Ok(length) => Told { refusal: 0, length },
            Err(x) => Told::from(x),
        }
    }
}

/// The same of a changing call, with the header as it then is.
#[repr(C)]
#[derive(Debug, Clone, Copy)]
pub struct Reply {
    pub refusal: usize,
    pub length: usize,
    pub header: Header,
}

impl From<Answered> for Reply {
    ghost use Rattle.std.specs.Prelude.{◌≡◌};
    ghost use Rattle.exports.specs.Replies.{reply_of};

    ghost from_gives = { λ a r. r ≡ reply_of a };

    fn from(a: Answered) -> Reply {
        let told = Told::from(a.answer);
        Reply {
            refusal: told.refusal,
            length: told.length,
            header: a.header,
        }
    }
}

/// W: whether header and buffers hold an index.
pub fn olybzhan_holds_index_by_value(h: Header, dir: &[u32], slots: &[u64], arena: &[u8]) -> bool
    ensures { Exact result (W h dir.now slots.now arena.now) }
{
    holds_index(h, dir, slots, arena)
}

/// A fresh index. Refused as 1, the header is all zero.
pub fn olybzhan_create_by_value(
    fanout: usize,
    dir: &mut [u32],
    slots: &mut [u64],
    arena: &[u8],
) -> Reply
    ensures { CreateReply fanout dir.old slots.old arena.now dir.new slots.new result }
{
    Reply::from(create(fanout, dir, slots, arena))
}

/// An index made fresh again. Refused as 2, the header is as it came.
pub fn olybzhan_clear_by_value(h: Header, dir: &mut [u32], slots: &mut [u64], arena: &[u8]) -> Reply
    ensures { ClearReply h dir.old slots.old arena.now dir.new slots.new result }
{
    Reply::from(clear(h, dir, slots, arena))
}

/// The number of pairs, in `length`. Refused as 2.
pub fn olybzhan_len_by_value(h: Header, dir: &[u32], slots: &[u64], arena: &[u8]) -> Told
    ensures { LenReply h dir.now slots.now arena.now result }
{
    Told::from(len(h, dir, slots, arena))
}
