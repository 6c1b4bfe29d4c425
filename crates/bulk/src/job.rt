// What is asked: a line such as `r s 20000`, the orders of the inserts and of the deletes and the number of pairs.
ghost use Rattle.std.specs.Prelude.{◌<◌, ◌≤◌, ◌≡◌, take};
ghost use Rattle.bulk.specs.Job.{Lettered, Numbered, Parsed, call_count, key_at, line_end, most_pairs};

const MOST_PAIRS: usize = 20000;

/// The orders of keys, each a letter of the line: r, f, s, and n for no calls.
#[derive(Clone, Copy, Debug, PartialEq, Eq)]
pub enum Order {
    Rising,
    Falling,
    Shuffled,
    Nothing,
}

#[derive(Clone, Copy, Debug, PartialEq, Eq)]
pub struct Job {
    pub inserts: Order,
    pub deletes: Order,
    pub pairs: usize,
}

pub fn call_count(o: Order, n: usize) -> usize
    ensures { result ≡ call_count o n }
{
    match o {
        Order::Rising | Order::Falling | Order::Shuffled => n,
        Order::Nothing => 0,
    }
}

// The key of the i-th of n calls. 7919 is a prime: where n is no multiple of it, a shuffle has every key once.
pub fn key_at(o: Order, i: usize, n: usize) -> usize
    requires { (i < n) × (n ≤ most_pairs) }
    ensures { result ≡ key_at o i n }
{
    match o {
        Order::Rising | Order::Nothing => i,
        Order::Falling => n - 1 - i,
        Order::Shuffled => i * 7919 % n,
    }
}

fn order_of(b: u8) -> Option<Order>
    ensures { Lettered b result }
{
    match b {
        b'r' => Some(Order::Rising),
        b'f' => Some(Order::Falling),
        b's' => Some(Order::Shuffled),
        b'n' => Some(Order::Nothing),
        _ => None,
    }
}

// The number of a word of digits, where it is not above the most.
fn number(word: &[u8]) -> Option<usize>
    ensures { Numbered word.now result }
{
    if word.is_empty() {
        return None;
    }
    let mut n = 0;
    for &b in word {
        if !b.is_ascii_digit() {
            return None;
        }
        n = n * 10 + (b - b'0') as usize;
        if MOST_PAIRS < n {
            return None;
        }
    }
    Some(n)
}

// The text without a newline at its end.
fn line_of(text: &[u8]) -> &[u8]
    ensures { result.now ≡ take (line_end text.now) text.now }
{
    match text {
        [line @ .., b'\n'] => line,
        _ => text,
    }
}

/// The job that a text asks for, if it does.
pub fn parse(text: &[u8]) -> Option<Job>
    ensures { Parsed text.now result }
{
    let [inserts, b' ', deletes, b' ', digits @ ..] = line_of(text) else {
        return None;
    };
    Some(Job {
        inserts: order_of(*inserts)?,
        deletes: order_of(*deletes)?,
        pairs: number(digits)?,
    })
}
