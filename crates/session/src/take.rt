// The lines of a piece of input, each answered as soon as it is whole.
ghost use Rattle.std.specs.Prelude.{◌+◌, ◌≤◌, ◌<◌};
ghost use Rattle.lists.specs.Exact.{Exact};
ghost use Rattle.session.specs.Same.{SameBuffers};
ghost use Rattle.session.specs.Session.{answer_limit};
ghost use Rattle.session.specs.Takes.{LineAsked, LineTaken, LinesAsked, LinesTaken};

use crate::{Buffers, Session, reply};
use feed::gather;

/// The most that one line's answer takes: 64 leaf lines with two keys each.
pub const ANSWER_LIMIT: usize = 133120;

/// A session, the place behind what was written, how far the piece of input was taken, and how many bytes of a line are held.
#[derive(Debug, Clone, Copy, PartialEq, Eq)]
pub struct Fed {
    pub session: Session,
    pub next: usize,
    pub held: usize,
    pub at: usize,
}

// One line's bytes, or as many as the piece has; where it ends there, it is answered.
fn take_line(f: Fed, b: &mut Buffers<'_>, piece: &[u8], line: &mut [u8]) -> Fed
    requires { LineAsked f b.old.dir.now b.old.slots.now b.old.arena.now piece.now line.old b.old.key.now b.old.value.now b.old.found.now b.old.out.now }
    ensures taken { LineTaken f b.old.dir.now b.old.slots.now b.old.arena.now piece.now line.old b.old.out.now result b.new.dir.now b.new.slots.now b.new.arena.now line.new b.new.out.now }
    ensures same { SameBuffers b.old b.new }
{
    let g = gather(piece, f.next, line, f.held);
    let Some(next) = g.next else {
        return Fed {
            next: piece.len(),
            held: g.held,
            ..f
        };
    };
    let r = reply(
        f.session,
        b.dir,
        b.slots,
        b.arena,
        &line[..g.held],
        b.key,
        b.value,
        b.found,
        b.out,
        f.at,
    );
    Fed {
        session: r.session,
        next,
        held: 0,
        at: r.at,
    }
}

// There is more of the piece, and the output has room for an answer.
#[tactic(auto, using(crate::specs::TakeLaws::goes_end, crate::specs::TakeLaws::goes_room))]
fn goes_on(f: Fed, length: usize, room: usize) -> bool
    requires { f.at ≤ room }
    ensures { Exact result ((f.next < length) × (f.at + answer_limit ≤ room)) }
{
    f.next < length && ANSWER_LIMIT <= room - f.at
}

/// The lines of a piece of input, as long as the output has room for an answer.
pub fn take_lines(f: Fed, b: &mut Buffers<'_>, piece: &[u8], line: &mut [u8]) -> Fed
    requires { LinesAsked f b.old.dir.now b.old.slots.now b.old.arena.now piece.now line.old b.old.key.now b.old.value.now b.old.found.now b.old.out.now }
    ensures taken { LinesTaken f b.old.dir.now b.old.slots.now b.old.arena.now piece.now line.old b.old.out.now result b.new.dir.now b.new.slots.now b.new.arena.now line.new b.new.out.now }
    ensures same { SameBuffers b.old b.new }
{
    let mut e = f;
    // (A `while`: it goes on by what is left of the piece and of the output, and counts nothing.)
    while goes_on(e, piece.len(), b.out.len()) {
        e = take_line(e, b, piece, line);
    }
    e
}
