// The dump of docs/LAYOUT.md: document 01's run in buffers of a pattern, then the header, every word and every byte, and what two calls read.
// (Header and buffers stay apart, as the entry points take them.)
#![tactic(auto)]

use layout::Header;
use model::{Bound, Range};
use std::fmt::Radix;
use std::io;
use std::io::Write;
use tree_create::create;
use tree_get::get_value;
use tree_insert::insert;
use tree_range::range_value;

// A pair of one-byte strings; its key is new, so there is no old value.
fn put(
    h: Header,
    dir: &mut [u32],
    slots: &mut [u64],
    arena: &mut [u8],
    key: &[u8],
    value: &[u8],
) -> Header {
    let mut old = [0u8; 1];
    insert(h, dir, slots, arena, key, value, &mut old).header
}

// `new 3 4 64` and the three puts.
fn run(dir: &mut [u32], slots: &mut [u64], arena: &mut [u8]) -> Header {
    let mut h = create(3, dir, slots, arena).header;
    for (key, value) in [(b"\x61", b"\x01"), (b"\x62", b"\x02"), (b"\x63", b"\x03")] {
        h = put(h, dir, slots, arena, key, value);
    }
    h
}

fn write_header<W: Write>(h: Header, writer: &mut W) -> io::Result<()> {
    write!(writer, "header fanout {} leaves {}", h.fanout, h.leaves)?;
    writeln!(writer, " pairs {} charge {}", h.pairs, h.charge)
}

// A line for each word: the name with the space behind it, then the word's place and all its digits in base 16. (Each piece of a format is a
// write of its own, so the space is the name's.)
fn write_words<T: Radix + Copy, W: Write>(
    name: &str,
    words: &[T],
    digits: usize,
    writer: &mut W,
) -> io::Result<()> {
    for (i, word) in words.iter().enumerate() {
        writeln!(writer, "{name}{i} {word:0digits$x}")?;
    }
    Ok(())
}

fn write_bytes<W: Write>(name: &str, bytes: &[u8], writer: &mut W) -> io::Result<()> {
    write!(writer, "{name}")?;
    for byte in bytes {
        write!(writer, " {byte:02x}")?;
    }
    writeln!(writer)
}

// Rows of 16 bytes, each with its place.
fn write_arena<W: Write>(arena: &[u8], writer: &mut W) -> io::Result<()> {
    for (row, bytes) in arena.chunks_exact(16).enumerate() {
        write!(writer, "arena {}", 16 * row)?;
        write_bytes("", bytes, writer)?;
    }
    Ok(())
}

fn write_values<W: Write>(
    h: Header,
    dir: &[u32],
    slots: &[u64],
    arena: &[u8],
    writer: &mut W,
) -> io::Result<()> {
    let above = Range {
        start: Bound::Excluded,
        end: Bound::Open,
    };
    let value = get_value(h, dir, slots, arena, b"\x62");
    write_bytes("value of 62:", value, writer)?;
    let first = range_value(h, dir, slots, arena, above, b"\x62", b"");
    write_bytes("first value above 62:", first, writer)
}

fn write_dump<W: Write>(
    h: Header,
    dir: &[u32],
    slots: &[u64],
    arena: &[u8],
    writer: &mut W,
) -> io::Result<()> {
    write_header(h, writer)?;
    write_words("directory ", dir, 8, writer)?;
    write_words("slot ", slots, 16, writer)?;
    write_arena(arena, writer)?;
    write_values(h, dir, slots, arena, writer)
}

fn main(rt: HostRuntime) {
    let mut dir = [0xEEEEEEEEu32; 4];
    let mut slots = [0xEEEEEEEEEEEEEEEEu64; 12];
    let mut arena = [0xEEu8; 64];
    let h = run(&mut dir, &mut slots, &mut arena);
    // A dump that can't be written is cut short, and the program ends as ever.
    let _ = write_dump(h, &dir, &slots, &arena, &mut rt.stdout());
}
