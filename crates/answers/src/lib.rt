// The answers of the script program, written to a lent output from a place on. Each function gives the place behind what it wrote. (An output with
// a place in it, since a `String` could run out of memory, and an answer can't fail.)
#![tactic(auto)]

ghost use Rattle.std.specs.Prelude.{[], ◌∷◌, ◌/◌, ◌%◌, ◌<◌, ◌≡◌};
ghost use Rattle.lines.specs.Grammar.{Number, ◌␣◌, bytes_text, digit_of, hex_of, number_text};
ghost use Rattle.answers.specs.Answers.{Room, Wrote, answered, counts_text, lined};
ghost use Rattle.answers.specs.Answers.Answer.{pair, refused};
ghost use Rattle.answers.specs.Said.{Countable, leaf_said, said, upper_text};

use moves::copy_into;

/// An answer of the script program.
#[derive(Clone, Copy, Debug, PartialEq, Eq)]
pub enum Answer<'a> {
    /// There is no value.
    Nothing,
    /// The value that stood at a key that was put or deleted.
    Old(&'a [u8]),
    Value(&'a [u8]),
    Pair(&'a [u8], &'a [u8]),
    /// No key follows.
    End,
    Leaf(Leaf<'a>),
    /// An index was made.
    Made,
    /// By the refusal's number.
    Refused(usize),
    Bad,
}

/// A leaf's line: its low key, its upper key, its keys' common prefix length and its number of pairs.
#[derive(Clone, Copy, Debug, PartialEq, Eq)]
pub struct Leaf<'a> {
    pub low: &'a [u8],
    pub upper: Option<&'a [u8]>,
    pub prefix: usize,
    pub pairs: usize,
}

fn write_byte(out: &mut [u8], at: usize, b: u8) -> usize
    requires { Room out.old at (b ∷ []) }
    ensures { Wrote out.old out.new at (b ∷ []) result }
{
    out[at] = b;
    at + 1
}

fn write_word(out: &mut [u8], at: usize, word: &[u8]) -> usize
    requires { Room out.old at word.now }
    ensures { Wrote out.old out.new at word.now result }
{
    copy_into(out, at, word);
    at + word.len()
}

// A hexadecimal digit in lower case.
fn hex_digit(d: u8) -> u8
    requires { d < 16 }
    ensures { result ≡ digit_of d }
{
    if d < 10 { b'0' + d } else { b'a' + (d - 10) }
}

fn write_hex(out: &mut [u8], at: usize, s: &[u8]) -> usize
    requires { Room out.old at (hex_of s.now) }
    ensures { Wrote out.old out.new at (hex_of s.now) result }
{
    for (i, byte) in s.iter().enumerate() {
        let j = at + 2 * i;
        out[j] = hex_digit(byte / 16);
        out[j + 1] = hex_digit(byte % 16);
    }
    at + 2 * s.len()
}

// The empty string is `-`.
fn write_bytes(out: &mut [u8], at: usize, s: &[u8]) -> usize
    requires { Room out.old at (bytes_text s.now) }
    ensures { Wrote out.old out.new at (bytes_text s.now) result }
{
    match s {
        [] => write_byte(out, at, b'-'),
        _ => write_hex(out, at, s),
    }
}

fn write_number(out: &mut [u8], at: usize, n: usize) -> usize
    requires { Number n × Room out.old at (number_text n) }
    ensures { Wrote out.old out.new at (number_text n) result }
{
    if n < 10 {
        return write_byte(out, at, b'0' + n as u8);
    }
    let e = write_number(out, at, n / 10);
    write_byte(out, e, b'0' + (n % 10) as u8)
}

fn spaced_bytes(out: &mut [u8], at: usize, s: &[u8]) -> usize
    requires { Room out.old at (32 ∷ bytes_text s.now) }
    ensures { Wrote out.old out.new at (32 ∷ bytes_text s.now) result }
{
    let e = write_byte(out, at, b' ');
    write_bytes(out, e, s)
}

fn spaced_number(out: &mut [u8], at: usize, n: usize) -> usize
    requires { Number n × Room out.old at (32 ∷ number_text n) }
    ensures { Wrote out.old out.new at (32 ∷ number_text n) result }
{
    let e = write_byte(out, at, b' ');
    write_number(out, e, n)
}

// A line of one fixed text.
fn write_line(out: &mut [u8], at: usize, text: &[u8]) -> usize
    requires { Room out.old at (lined text.now) }
    ensures { Wrote out.old out.new at (lined text.now) result }
{
    let e = write_word(out, at, text);
    write_byte(out, e, b'\n')
}

// A word and bytes.
fn write_tagged(out: &mut [u8], at: usize, word: &[u8], s: &[u8]) -> usize
    requires { Room out.old at (lined (word.now ␣ bytes_text s.now)) }
    ensures { Wrote out.old out.new at (lined (word.now ␣ bytes_text s.now)) result }
{
    let w = write_word(out, at, word);
    let e = spaced_bytes(out, w, s);
    write_byte(out, e, b'\n')
}

// The end of a leaf's line: prefix length and number of pairs.
fn write_counts(out: &mut [u8], at: usize, prefix: usize, pairs: usize) -> usize
    requires { Number prefix × Number pairs × Room out.old at (counts_text prefix pairs) }
    ensures { Wrote out.old out.new at (counts_text prefix pairs) result }
{
    let p = spaced_number(out, at, prefix);
    let n = spaced_number(out, p, pairs);
    write_byte(out, n, b'\n')
}

fn write_pair(out: &mut [u8], at: usize, key: &[u8], s: &[u8]) -> usize
    requires { Room out.old at (answered (pair key.now s.now)) }
    ensures { Wrote out.old out.new at (answered (pair key.now s.now)) result }
{
    let w = write_word(out, at, b"pair");
    let k = spaced_bytes(out, w, key);
    let e = spaced_bytes(out, k, s);
    write_byte(out, e, b'\n')
}

fn write_refused(out: &mut [u8], at: usize, n: usize) -> usize
    requires { Number n × Room out.old at (answered (refused n)) }
    ensures { Wrote out.old out.new at (answered (refused n)) result }
{
    let w = write_word(out, at, b"refused");
    let e = spaced_number(out, w, n);
    write_byte(out, e, b'\n')
}

// A leaf without an upper key has a star in its place.
fn write_upper(out: &mut [u8], at: usize, upper: Option<&[u8]>) -> usize
    requires { Room out.old at (32 ∷ upper_text upper) }
    ensures { Wrote out.old out.new at (32 ∷ upper_text upper.entry) result }
{
    match upper {
        Some(key) => spaced_bytes(out, at, key),
        None => write_word(out, at, b" *"),
    }
}

fn write_leaf(out: &mut [u8], at: usize, leaf: Leaf<'_>) -> usize
    requires { Number leaf.prefix × Number leaf.pairs × Room out.old at (answered (leaf_said leaf)) }
    ensures { Wrote out.old out.new at (answered (leaf_said leaf.entry)) result }
{
    let w = write_word(out, at, b"leaf");
    let l = spaced_bytes(out, w, leaf.low);
    let u = write_upper(out, l, leaf.upper);
    write_counts(out, u, leaf.prefix, leaf.pairs)
}

/// The answer's line, with its newline.
pub fn write(out: &mut [u8], at: usize, answer: Answer<'_>) -> usize
    requires { Countable answer × Room out.old at (answered (said answer)) }
    ensures { Wrote out.old out.new at (answered (said answer.entry)) result }
{
    match answer {
        Answer::Nothing => write_line(out, at, b"none"),
        Answer::Old(s) => write_tagged(out, at, b"old", s),
        Answer::Value(s) => write_tagged(out, at, b"value", s),
        Answer::Pair(key, s) => write_pair(out, at, key, s),
        Answer::End => write_line(out, at, b"end"),
        Answer::Leaf(leaf) => write_leaf(out, at, leaf),
        Answer::Made => write_line(out, at, b"new"),
        Answer::Refused(n) => write_refused(out, at, n),
        Answer::Bad => write_line(out, at, b"bad line"),
    }
}
