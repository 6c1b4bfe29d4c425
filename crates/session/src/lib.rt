// A run of the script program: which index there is, if any, and what each line does.
// The functions here take the buffers one by one: a struct of them was tried, and no proof closed of `&mut b.dir[..n]` beside another field of `b`,
// nor of two fields lent to read. From `take` on they travel together, as `Buffers`. They are lent, since a `Vec` or a `String` could run out of
// memory, and an answer can't fail.
#![tactic(auto)]

ghost use Rattle.std.specs.Prelude.{Some, length, ◌+◌, ◌≡◌, ◌≤◌};
ghost use Rattle.std.proofs.Math.Option.{some};
ghost use Rattle.answers.specs.Answers.{Wrote, answered, bad};
ghost use Rattle.lines.specs.Grammar.Command.{dels, puts};
ghost use Rattle.session.specs.Serving.{BadReplied, ChangeAsked, LineAsked, NewAsked, OpenAsked, RepliedBy, ServeAsked, ServedBy, has_index, holding, old_said, told_command};
ghost use Rattle.session.specs.Session.{ReplyAsked, ReplyMade, no_index};
ghost use Rattle.session.specs.Turns.{Idle, NewIdle, above, line_turn, new_turn};

use answers::{Answer, write};
use changes::Changed;
use layout::Header;
use lines::{Line, Sizes, parse};
use model::Refusal;
use replies::{refuse, reply_get, reply_leaves, reply_new, reply_next};
use tree_insert::insert;
use tree_remove::remove;

pub mod take;

/// The program's own ceilings.
pub const FANOUT_CEILING: usize = 64;

pub const POOL_CEILING: usize = 64;

pub const ARENA_CEILING: usize = 16384;

/// Which index there is, if any.
#[derive(Debug, Clone, Copy, PartialEq, Eq)]
pub struct Session {
    pub index: Option<Open>,
}

/// An index in the fronts of the buffers: its header, and how much of the directory buffer and of the arena is its own.
#[derive(Debug, Clone, Copy, PartialEq, Eq)]
pub struct Open {
    pub header: Header,
    pub pool: usize,
    pub arena: usize,
}

/// The buffers that a line is answered in: of `dir`, `slots` and `arena` an index has the fronts, `key` and `value` are for what the line says, `found`
/// is for an old value or a found key, and `out` for the answer.
#[derive(Drop)]
pub struct Buffers<'a> {
    pub dir: &'a mut [u32],
    pub slots: &'a mut [u64],
    pub arena: &'a mut [u8],
    pub key: &'a mut [u8],
    pub value: &'a mut [u8],
    pub found: &'a mut [u8],
    pub out: &'a mut [u8],
}

/// A session and the place behind what was written.
#[derive(Debug, Clone, Copy, PartialEq, Eq)]
pub struct Replied {
    pub session: Session,
    pub at: usize,
}

// A header and the place behind what was written.
#[derive(Debug, Clone, Copy, PartialEq, Eq)]
struct Served {
    pub header: Header,
    pub at: usize,
}

/// Before the first accepted `new`.
pub fn closed() -> Session
    ensures { result ≡ no_index }
{
    Session { index: None }
}

fn opened(header: Header, pool: usize, arena: usize) -> Session
    ensures { result ≡ has_index header pool arena }
{
    Session {
        index: Some(Open {
            header,
            pool,
            arena,
        }),
    }
}

#[tactic(auto, using(crate::specs::ServeLaws::above_fanout, crate::specs::ServeLaws::above_pool, crate::specs::ServeLaws::above_arena))]
fn above_ceiling(n: Sizes) -> bool
    ensures { result ≡ above n.fanout n.pool n.arena }
{
    FANOUT_CEILING < n.fanout || POOL_CEILING < n.pool || ARENA_CEILING < n.arena
}

// `new`: refused, it leaves the index as it was.
fn start_afresh(
    s: Session,
    n: Sizes,
    dir: &mut [u32],
    slots: &mut [u64],
    arena: &[u8],
    out: &mut [u8],
    at: usize,
) -> Replied
    requires { NewAsked dir.old slots.old arena.now out.old at }
    ensures { RepliedBy (λ z. new_turn z n.fanout n.pool n.arena) (λ _. NewIdle n.fanout n.pool n.arena) s dir.old slots.old arena.now out.old at result dir.new slots.new arena.now out.new }
{
    if above_ceiling(n) {
        return Replied {
            session: s,
            at: refuse(Refusal::Shape, out, at),
        };
    }
    let words = n.fanout * n.pool;
    let r = reply_new(
        n.fanout,
        &mut dir[..n.pool],
        &mut slots[..words],
        &arena[..n.arena],
        out,
        at,
    );
    let session = match r.header {
        Some(header) => opened(header, n.pool, n.arena),
        None => s,
    };
    Replied { session, at: r.at }
}

// What a changing call handed back.
fn write_change(c: Changed, old: &[u8], out: &mut [u8], at: usize) -> Served
    requires { ChangeAsked c.old old.now out.old at }
    ensures header { result.header ≡ c.header }
    ensures wrote { Wrote out.old out.new at (old_said c.old old.now) result.at }
{
    let at = match c.old {
        Ok(Some(n)) => write(out, at, Answer::Old(&old[..n])),
        Ok(None) => write(out, at, Answer::Nothing),
        Err(r) => refuse(r, out, at),
    };
    Served {
        header: c.header,
        at,
    }
}

// `put`
fn reply_put(
    h: Header,
    dir: &mut [u32],
    slots: &mut [u64],
    arena: &mut [u8],
    key: &[u8],
    value: &[u8],
    old: &mut [u8],
    out: &mut [u8],
    at: usize,
) -> Served
    requires { ServeAsked h dir.old slots.old arena.old old.old out.old at }
    ensures { ServedBy (some (puts key.now value.now)) h dir.old slots.old arena.old out.old at result dir.new slots.new arena.new out.new }
{
    let c = insert(h, dir, slots, arena, key, value, old);
    write_change(c, old, out, at)
}

// `del`
fn reply_del(
    h: Header,
    dir: &mut [u32],
    slots: &mut [u64],
    arena: &mut [u8],
    key: &[u8],
    old: &mut [u8],
    out: &mut [u8],
    at: usize,
) -> Served
    requires { ServeAsked h dir.old slots.old arena.old old.old out.old at }
    ensures { ServedBy (some (dels key.now)) h dir.old slots.old arena.old out.old at result dir.new slots.new arena.new out.new }
{
    let c = remove(h, dir, slots, arena, key, old);
    write_change(c, old, out, at)
}

// A line other than `new`, on an index.
fn serve(
    h: Header,
    dir: &mut [u32],
    slots: &mut [u64],
    arena: &mut [u8],
    line: Line,
    key: &[u8],
    value: &[u8],
    old: &mut [u8],
    out: &mut [u8],
    at: usize,
) -> Served
    requires { LineAsked h dir.old slots.old arena.old line key.now value.now old.old out.old at }
    ensures { ServedBy (told_command (Some line) key.now value.now) h dir.old slots.old arena.old out.old at result dir.new slots.new arena.new out.new }
{
    match line {
        Line::Put(n, m) => { reply_put(h, dir, slots, arena, &key[..n], &value[..m], old, out, at) }
        Line::Get(n) => Served {
            header: h,
            at: reply_get(h, dir, slots, arena, &key[..n], out, at),
        },
        Line::Next(n) => Served {
            header: h,
            at: reply_next(h, dir, slots, arena, &key[..n], old, out, at),
        },
        Line::Leaves => Served {
            header: h,
            at: reply_leaves(h, dir, slots, arena, out, at),
        },
        Line::Del(n) => reply_del(h, dir, slots, arena, &key[..n], old, out, at),
        Line::New(_) => unreachable!(),
    }
}

// A line other than `new`, where there is an index: it has the fronts of the buffers.
fn reply_open(
    index: Open,
    dir: &mut [u32],
    slots: &mut [u64],
    arena: &mut [u8],
    line: Line,
    key: &[u8],
    value: &[u8],
    old: &mut [u8],
    out: &mut [u8],
    at: usize,
) -> Replied
    requires { OpenAsked index dir.old slots.old arena.old line key.now value.now old.old out.old at }
    ensures { RepliedBy (λ z. line_turn z (told_command (Some line) key.now value.now)) (λ z. Idle z (told_command (Some line) key.now value.now)) (holding index) dir.old slots.old arena.old out.old at result dir.new slots.new arena.new out.new }
{
    let words = index.header.fanout * index.pool;
    let r = serve(
        index.header,
        &mut dir[..index.pool],
        &mut slots[..words],
        &mut arena[..index.arena],
        line,
        key,
        value,
        old,
        out,
        at,
    );
    Replied {
        session: opened(r.header, index.pool, index.arena),
        at: r.at,
    }
}

// A line that says nothing, or asks for an index where there is none.
fn reply_bad(s: Session, out: &mut [u8], at: usize) -> Replied
    requires { at + length (answered bad) ≤ length out.old }
    ensures { BadReplied s out.old at result out.new }
{
    Replied {
        session: s,
        at: write(out, at, Answer::Bad),
    }
}

/// The answer to one line.
pub fn reply(
    s: Session,
    dir: &mut [u32],
    slots: &mut [u64],
    arena: &mut [u8],
    line: &[u8],
    key: &mut [u8],
    value: &mut [u8],
    old: &mut [u8],
    out: &mut [u8],
    at: usize,
) -> Replied
    requires { ReplyAsked s dir.old slots.old arena.old key.old value.old old.old out.old at }
    ensures { ReplyMade s dir.old slots.old arena.old line.now out.old at result dir.new slots.new arena.new out.new }
{
    let Some(said) = parse(line, key, value) else {
        return reply_bad(s, out, at);
    };
    if let Line::New(n) = said {
        return start_afresh(s, n, dir, slots, arena, out, at);
    }
    let Some(index) = s.index else {
        return reply_bad(s, out, at);
    };
    reply_open(index, dir, slots, arena, said, key, value, old, out, at)
}
