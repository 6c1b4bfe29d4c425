// The lines of the script program: what a line says.
#![tactic(auto)]

ghost use Rattle.std.specs.Prelude.{◌≡◌, ℕ, ◌+◌, ◌/◌, ◌≤◌, ◌<◌, length, get_or};
ghost use Rattle.lists.specs.Exact.{Exact};
ghost use Rattle.order.specs.Bytes.{Bytes};
ghost use Rattle.lines.specs.Grammar.{Parsed, ◌␣◌, new_word, put_word};
ghost use Rattle.lines.specs.Pieces.{Decoded, FirstSpace, HexValue, IsBytes, Numbered, OneKey, TenValue};

/// The three numbers of `new`.
#[derive(Clone, Copy, Debug, PartialEq, Eq)]
pub struct Sizes {
    pub fanout: usize,
    pub pool: usize,
    pub arena: usize,
}

/// What a line says. The numbers of a key and a value are their lengths in the lent buffers.
#[derive(Clone, Copy, Debug, PartialEq, Eq)]
pub enum Line {
    New(Sizes),
    Put(usize, usize),
    Get(usize),
    Del(usize),
    Next(usize),
    Leaves,
}

// The value of a hexadecimal digit in lower case.
fn hex_value(b: u8) -> Option<u8>
    ensures { HexValue b result }
{
    match b {
        b'0'..=b'9' => Some(b - b'0'),
        b'a'..=b'f' => Some(b - b'a' + 10),
        _ => None,
    }
}

// The word is the text of some bytes.
fn is_bytes(word: &[u8]) -> bool
    ensures { Exact result (IsBytes word.now) }
{
    match word.len() {
        0 => false,
        1 => word[0] == b'-',
        n => n % 2 == 0 && word.iter().all(|&b| hex_value(b).is_some()),
    }
}

// The bytes of a word, at the output's front. `-` has no pair of digits: nothing is written.
fn decode(word: &[u8], out: &mut [u8]) -> usize
    requires { IsBytes word.now × (length word.now / 2 ≤ length out.old) }
    ensures { Decoded word.now out.old out.new result }
{
    let n = word.len() / 2;
    for i in 0..n {
        // Every byte is a digit, so the 0 is never taken: it spares the loop its branches.
        let high = hex_value(word[2 * i]).unwrap_or(0);
        let low = hex_value(word[2 * i + 1]).unwrap_or(0);
        out[i] = high * 16 + low;
    }
    n
}

// The value of a decimal digit.
fn ten_value(b: u8) -> Option<usize>
    ensures { TenValue b result }
{
    match b {
        b'0'..=b'9' => Some((b - b'0') as usize),
        _ => None,
    }
}

// The number of a word of 1 to 9 digits that does not start with 0.
fn counted(word: &[u8]) -> Option<usize>
    requires { (0 < length word.now) × (length word.now ≤ 9) × (get_or word.now 0 0 ≡ 48 → ⊥) }
    ensures { Numbered word.now result }
{
    let mut v = ten_value(word[0])?;
    for i in 1..word.len() {
        v = v * 10 + ten_value(word[i])?;
    }
    Some(v)
}

// The number that a word is the text of.
fn number(word: &[u8]) -> Option<usize>
    ensures { Numbered word.now result }
{
    match word {
        [] => None,
        [b'0'] => Some(0),
        [b'0', ..] => None,
        _ if 9 < word.len() => None,
        _ => counted(word),
    }
}

// The place of the first space.
fn word_end(line: &[u8]) -> Option<usize>
    ensures { FirstSpace line.now result }
{
    line.iter().position(|&b| b == b' ')
}

// What the line `new` with these words behind it says.
fn parse_new(words: &[u8]) -> Option<Line>
    requires { 4 + length words.now ≤ 4096 }
    ensures { (key value : Bytes) → Parsed (new_word ␣ words.now) key key value value result }
{
    let e = word_end(words)?;
    let rest = &words[e + 1..];
    let m = word_end(rest)?;
    let fanout = number(&words[..e])?;
    let pool = number(&rest[..m])?;
    let arena = number(&rest[m + 1..])?;
    Some(Line::New(Sizes {
        fanout,
        pool,
        arena,
    }))
}

// What the line `put` with these words behind it says.
fn parse_put(words: &[u8], key: &mut [u8], value: &mut [u8]) -> Option<Line>
    requires { (4 + length words.now ≤ 4096) × (2048 ≤ length key.old) × (2048 ≤ length value.old) }
    ensures { Parsed (put_word ␣ words.now) key.old key.new value.old value.new result }
{
    let e = word_end(words)?;
    if !is_bytes(&words[..e]) {
        return None;
    }
    if !is_bytes(&words[e + 1..]) {
        return None;
    }
    let n = decode(&words[..e], key);
    let m = decode(&words[e + 1..], value);
    Some(Line::Put(n, m))
}

// What the line of a command other than `new` and `put`, with one word behind it, says.
fn parse_key(command: &[u8], word: &[u8], key: &mut [u8]) -> Option<Line>
    requires { OneKey command.now word.now × (2048 ≤ length key.old) }
    ensures { (value : Bytes) → Parsed (command.now ␣ word.now) key.old key.new value value result }
{
    if !is_bytes(word) {
        return None;
    }
    // By `==`: a `match` on the bytes was tried, and asks for a proof at each byte where a command may differ.
    if command == b"get".as_slice() {
        return Some(Line::Get(decode(word, key)));
    }
    if command == b"del".as_slice() {
        return Some(Line::Del(decode(word, key)));
    }
    if command == b"next".as_slice() {
        return Some(Line::Next(decode(word, key)));
    }
    None
}

/// What a line says; `None` if it is no command's text, or longer than 4,096 bytes.
pub fn parse(line: &[u8], key: &mut [u8], value: &mut [u8]) -> Option<Line>
    requires { (2048 ≤ length key.old) × (2048 ≤ length value.old) }
    ensures { Parsed line.now key.old key.new value.old value.new result }
{
    if 4096 < line.len() {
        return None;
    }
    let Some(e) = word_end(line) else {
        return if line == b"leaves".as_slice() {
            Some(Line::Leaves)
        } else {
            None
        };
    };
    let command = &line[..e];
    let words = &line[e + 1..];
    if command == b"put".as_slice() {
        return parse_put(words, key, value);
    }
    if command == b"new".as_slice() {
        return parse_new(words);
    }
    parse_key(command, words, key)
}
