// Fills an index and empties it: a caller that owns its buffers tests W once, and then makes all its calls through the functions under the
// entry points, which presume an index and leave one. (Header and buffers stay apart, as those functions take them.)
#![tactic(auto)]

ghost use Rattle.std.specs.Prelude.{◌<◌, ◌≤◌, ◌≡◌, length};
ghost use Rattle.layout.specs.Presumed.{Index};
ghost use Rattle.bulk.specs.Bulk.{CallAll, CallOne, Counted, Ran, four_bytes, store};
ghost use Rattle.bulk.specs.Job.{most_pairs};

mod job;

use changes::Changed;
use job::{Job, Order, call_count, key_at, parse};
use layout::Header;
use std::io;
use std::io::{Read, Write};
use tree_create::create;
use tree_insert::inner::insert;
use tree_read::check::holds_index;
use tree_remove::inner::remove;

const FANOUT: usize = 64;

#[derive(Clone, Copy, Debug, PartialEq, Eq)]
enum Kind {
    Insert,
    Remove,
}

// What a row of calls left: the header, how many calls were refused, and how many found their key.
#[derive(Clone, Copy)]
struct Tally {
    header: Header,
    refused: usize,
    found: usize,
}

// Four bytes, most significant first, so that byte strings rise as the numbers do.
fn bytes_of(n: usize) -> [u8; 4]
    ensures { result ≡ four_bytes n }
{
    let [_, _, _, _, a, b, c, d] = n.to_be_bytes();
    [a, b, c, d]
}

fn count(t: Tally, c: Changed) -> Tally
    requires { (t.refused < most_pairs) × (t.found < most_pairs) }
    ensures { Counted t c result }
{
    let header = c.header;
    match c.old {
        Ok(Some(_)) => Tally {
            header,
            found: t.found + 1,
            ..t
        },
        Ok(None) => Tally { header, ..t },
        Err(_) => Tally {
            header,
            refused: t.refused + 1,
            ..t
        },
    }
}

// A removal needs no value.
fn call_one(
    kind: Kind,
    h: Header,
    dir: &mut [u32],
    slots: &mut [u64],
    arena: &mut [u8],
    key: usize,
    value: usize,
) -> Changed
    requires { Index h dir.old slots.old arena.old }
    ensures { CallOne kind key value h (store dir.old slots.old arena.old) result (store dir.new slots.new arena.new) }
{
    let key = bytes_of(key);
    let mut old = [0u8; 4];
    match kind {
        Kind::Insert => insert(h, dir, slots, arena, &key, &bytes_of(value), &mut old),
        Kind::Remove => remove(h, dir, slots, arena, &key, &mut old),
    }
}

fn call_all(
    kind: Kind,
    h: Header,
    dir: &mut [u32],
    slots: &mut [u64],
    arena: &mut [u8],
    order: Order,
    n: usize,
) -> Tally
    requires { Index h dir.old slots.old arena.old × (n ≤ most_pairs) }
    ensures { CallAll kind order n h (store dir.old slots.old arena.old) result (store dir.new slots.new arena.new) }
{
    let mut t = Tally {
        header: h,
        refused: 0,
        found: 0,
    };
    for i in 0..n {
        let key = key_at(order, i, n);
        let c = call_one(kind, t.header, dir, slots, arena, key, i);
        t = count(t, c);
    }
    t
}

fn write_tally<W: Write>(name: &str, t: Tally, writer: &mut W) -> io::Result<()> {
    let h = t.header;
    write!(
        writer,
        "{name} pairs {} leaves {} charge {}",
        h.pairs, h.leaves, h.charge
    )?;
    writeln!(writer, " refused {} found {}", t.refused, t.found)
}

// Both rows are made whether or not the tallies can be written.
fn run<W: Write>(
    j: Job,
    dir: &mut [u32],
    slots: &mut [u64],
    arena: &mut [u8],
    writer: &mut W,
) -> io::Result<()>
    requires { j.pairs ≤ most_pairs }
    ensures { Ran j (store dir.old slots.old arena.old) (store dir.new slots.new arena.new) }
{
    let r = create(FANOUT, dir, slots, arena);
    let h = r.header;
    if !holds_index(h, dir, slots, arena) {
        return writeln!(writer, "no index");
    }
    let inserts = call_count(j.inserts, j.pairs);
    let full = call_all(Kind::Insert, h, dir, slots, arena, j.inserts, inserts);
    let full_written = write_tally("inserts", full, writer);
    let deletes = call_count(j.deletes, j.pairs);
    let left = call_all(
        Kind::Remove,
        full.header,
        dir,
        slots,
        arena,
        j.deletes,
        deletes,
    );
    let left_written = write_tally("deletes", left, writer);
    full_written.and(left_written)
}

// Reads until the buffer is full, the input ends or a read fails: how many bytes came. `read_exact` doesn't tell how many, where the input is
// shorter, and tries an interrupted read again.
fn read_front<R: Read>(reader: &mut R, buffer: &mut [u8]) -> usize
    ensures { result ≤ length buffer.new }
{
    let mut done = 0;
    while done < buffer.len() {
        match reader.read(&mut buffer[done..]) {
            Ok(0) | Err(_) => break,
            Ok(n) => done += n,
        }
    }
    done
}

// Reads what is asked and does it. An error is of a write: a read that fails ends the line.
fn answer<R: Read, W: Write>(
    dir: &mut [u32],
    slots: &mut [u64],
    arena: &mut [u8],
    reader: &mut R,
    writer: &mut W,
) -> io::Result<()> {
    let mut text = [0u8; 16];
    let got = read_front(reader, &mut text);
    let Some(j) = parse(&text[..got]) else {
        return writeln!(writer, "bad line");
    };
    run(j, dir, slots, arena, writer)
}

fn main(rt: HostRuntime) {
    let mut dir = [0u32; 1024];
    let mut slots = [0u64; 65536];
    let mut arena = [0u8; 1048576];
    // Where an answer can't be written, the program ends as ever.
    let _ = answer(
        &mut dir,
        &mut slots,
        &mut arena,
        &mut rt.stdin(),
        &mut rt.stdout(),
    );
}
