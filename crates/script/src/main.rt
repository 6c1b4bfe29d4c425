// The script program: one call a line, from standard input; the answers to standard output.
#![tactic(auto)]

ghost use Rattle.std.specs.Prelude.{◌≡◌, ◌≤◌, length, take};
ghost use Rattle.session.specs.Same.{SameBuffers};
ghost use Rattle.script.specs.Script.{AllRead, Answered, Due, Filled, Got, Kept, Last, Ready, Room, Stepped, begun, has_failed, is_more};

use session::take::{Fed, take_lines};
use session::{Buffers, Session, closed, reply};
use std::io;
use std::io::{Read, Write};

// As large as the program's ceilings ask. (Arrays: with a `Vec` that can't be had a line would go without its answer.)
const DIR_LENGTH: usize = 64;

const SLOTS_LENGTH: usize = 4096;

const ARENA_LENGTH: usize = 16384;

const INPUT_LENGTH: usize = 65536;

// One byte above the limit of a line.
const LINE_LENGTH: usize = 4097;

// Half a line: two digits make a byte.
const PART_LENGTH: usize = 2048;

// An old value, or a found key.
const FOUND_LENGTH: usize = 65536;

// The room for an answer, twice.
const OUTPUT_LENGTH: usize = 266240;

// Whether more input may come. None does at the input's end, and where a read or a write failed.
#[derive(Clone, Copy, Debug, PartialEq, Eq)]
enum Input {
    More,
    Ended,
    Failed,
}

impl Input {
    fn is_more(self) -> bool
        ensures { result ≡ is_more self }
    {
        matches!(self, Input::More)
    }

    fn has_failed(self) -> bool
        ensures { result ≡ has_failed self }
    {
        matches!(self, Input::Failed)
    }
}

// What goes on from one piece of input to the next: which index there is, how many bytes of a line are held, and whether there may be more input.
#[derive(Clone, Copy)]
struct Carried {
    session: Session,
    held: usize,
    input: Input,
}

// What the reads left, and how many there were.
#[derive(Clone, Copy)]
struct Reads {
    carried: Carried,
    turns: usize,
}

// The output is empty, and the piece is taken from `next` on.
fn begin(c: Carried, next: usize) -> Fed
    ensures { result ≡ begun c next }
{
    Fed {
        session: c.session,
        next,
        held: c.held,
        at: 0,
    }
}

// Hands a text of the program to the writer: of what comes of that no contract says anything.
fn write_text<W: Write>(text: &[u8], writer: &mut W) -> io::Result<()>
    requires { Due text.now }
{
    writer.write_all(text)
}

// The output's first bytes, which are such a text.
fn write_front<W: Write>(b: &Buffers<'_>, end: usize, writer: &mut W) -> io::Result<()>
    requires { (end ≤ length b.now.out.now) × Due (take end b.now.out.now) }
{
    write_text(&b.out[..end], writer)
}

// Writes the answers out. Where that fails, there is no more input.
fn write_out<W: Write>(f: Fed, b: &Buffers<'_>, writer: &mut W) -> Carried
    requires { Filled f b.now.out.now }
    ensures { Kept f result }
{
    let input = match write_front(b, f.at, writer) {
        Ok(()) => Input::More,
        Err(_) => Input::Failed,
    };
    Carried {
        session: f.session,
        held: f.held,
        input,
    }
}

// A piece of input answered, the output written whenever it is nearly full, and at the end.
fn answer_piece<W: Write>(
    c: Carried,
    b: &mut Buffers<'_>,
    piece: &[u8],
    line: &mut [u8],
    writer: &mut W,
) -> Carried
    requires { Ready c b.old.dir.now b.old.slots.now b.old.arena.now line.old b.old.key.now b.old.value.now b.old.found.now b.old.out.now }
    ensures answered { Answered c b.old.dir.now b.old.slots.now b.old.arena.now line.old piece.now result b.new.dir.now b.new.slots.now b.new.arena.now line.new }
    ensures same { SameBuffers b.old b.new }
{
    let mut e = c;
    let mut next = 0;
    // (A `while`: how far a turn comes says `take_lines`, and a write may end it.)
    while next < piece.len() && e.input.is_more() {
        let f = take_lines(begin(e, next), b, piece, line);
        next = f.next;
        e = write_out(f, b, writer);
    }
    e
}

// What a read answered: at the input's end, and where the read failed, no more comes; else the bytes that came are at the buffer's front.
fn answer_got<W: Write>(
    c: Carried,
    got: io::Result<usize>,
    b: &mut Buffers<'_>,
    input: &[u8],
    line: &mut [u8],
    writer: &mut W,
) -> Carried
    requires { Ready c b.old.dir.now b.old.slots.now b.old.arena.now line.old b.old.key.now b.old.value.now b.old.found.now b.old.out.now }
    ensures got { Got got c b.old.dir.now b.old.slots.now b.old.arena.now line.old input.now result b.new.dir.now b.new.slots.now b.new.arena.now line.new }
    ensures same { SameBuffers b.old b.new }
{
    match got {
        Ok(0) => Carried {
            input: Input::Ended,
            ..c
        },
        Ok(count) => {
            let count = count.min(input.len());
            answer_piece(c, b, &input[..count], line, writer)
        }
        Err(_) => Carried {
            input: Input::Failed,
            ..c
        },
    }
}

// Reads once, and answers what came.
fn answer_some<R: Read, W: Write>(
    c: Carried,
    b: &mut Buffers<'_>,
    input: &mut [u8],
    line: &mut [u8],
    reader: &mut R,
    writer: &mut W,
) -> Carried
    requires { Ready c b.old.dir.now b.old.slots.now b.old.arena.now line.old b.old.key.now b.old.value.now b.old.found.now b.old.out.now }
    ensures stepped { Stepped c b.old.dir.now b.old.slots.now b.old.arena.now line.old input.old result b.new.dir.now b.new.slots.now b.new.arena.now line.new input.new }
    ensures same { SameBuffers b.old b.new }
{
    let got = reader.read(input);
    answer_got(c, got, b, input, line, writer)
}

// A last line without a newline counts as a line, unless a read or a write failed: then what is held may be cut.
fn answer_last<W: Write>(c: Carried, b: &mut Buffers<'_>, line: &[u8], writer: &mut W)
    requires { Ready c b.old.dir.now b.old.slots.now b.old.arena.now line.now b.old.key.now b.old.value.now b.old.found.now b.old.out.now }
    ensures last { Last c b.old.dir.now b.old.slots.now b.old.arena.now line.now b.old.out.now b.new.out.now }
    ensures same { SameBuffers b.old b.new }
{
    if c.input.has_failed() || c.held == 0 {
        return;
    }
    let r = reply(
        c.session,
        b.dir,
        b.slots,
        b.arena,
        &line[..c.held],
        b.key,
        b.value,
        b.found,
        b.out,
        0,
    );
    // Nothing comes after it, so nothing depends on whether it was written.
    let _ = write_front(b, r.at, writer);
}

// Reads and answers until no more comes. A proved loop has to end, and nothing says that the input does: so the turns are counted up to a number
// that no run comes to.
fn answer_reads<R: Read, W: Write>(
    b: &mut Buffers<'_>,
    input: &mut [u8],
    line: &mut [u8],
    reader: &mut R,
    writer: &mut W,
) -> Reads
    requires { Room b.old.dir.now b.old.slots.now b.old.arena.now line.old b.old.key.now b.old.value.now b.old.found.now b.old.out.now }
    ensures read { AllRead result b.new.dir.now b.new.slots.now b.new.arena.now line.new b.new.key.now b.new.value.now b.new.found.now b.new.out.now }
    ensures same { SameBuffers b.old b.new }
{
    let mut c = Carried {
        session: closed(),
        held: 0,
        input: Input::More,
    };
    let mut turns = 0;
    for turn in 0..usize::MAX {
        if !c.input.is_more() {
            return Reads { carried: c, turns };
        }
        c = answer_some(c, b, input, line, reader, writer);
        turns = turn + 1;
    }
    Reads { carried: c, turns }
}

// All of the input, then the last line.
fn answer_all<R: Read, W: Write>(
    b: &mut Buffers<'_>,
    input: &mut [u8],
    line: &mut [u8],
    reader: &mut R,
    writer: &mut W,
)
    requires { Room b.old.dir.now b.old.slots.now b.old.arena.now line.old b.old.key.now b.old.value.now b.old.found.now b.old.out.now }
    ensures same { SameBuffers b.old b.new }
{
    let r = answer_reads(b, input, line, reader, writer);
    answer_last(r.carried, b, line, writer);
}

fn main(rt: HostRuntime) {
    let mut dir = [0u32; DIR_LENGTH];
    let mut slots = [0u64; SLOTS_LENGTH];
    let mut arena = [0u8; ARENA_LENGTH];
    let mut input = [0u8; INPUT_LENGTH];
    let mut line = [0u8; LINE_LENGTH];
    let mut key = [0u8; PART_LENGTH];
    let mut value = [0u8; PART_LENGTH];
    let mut found = [0u8; FOUND_LENGTH];
    let mut out = [0u8; OUTPUT_LENGTH];
    let mut b = Buffers {
        dir: &mut dir,
        slots: &mut slots,
        arena: &mut arena,
        key: &mut key,
        value: &mut value,
        found: &mut found,
        out: &mut out,
    };
    answer_all(
        &mut b,
        &mut input,
        &mut line,
        &mut rt.stdin(),
        &mut rt.stdout(),
    );
}
