// Lines out of pieces of input: a line's bytes are gathered in a lent buffer, as many as it has room for. (Lent, and how many it holds beside it,
// since a `Vec` could run out of memory, and no byte of a line may be lost for that.)
#![tactic(auto)]

ghost use Rattle.std.specs.Prelude.{◌≤◌, length};
ghost use Rattle.feed.specs.Feeds.{FirstNewline, Gathers, Holds};

use moves::copy_into;

/// What was gathered from a piece of input.
#[derive(Clone, Copy, Debug, PartialEq, Eq)]
pub struct Gathered {
    /// How many bytes of the line the buffer has.
    pub held: usize,
    /// The place in the piece behind the line's newline; `None` if the piece ended first.
    pub next: Option<usize>,
}

fn line_end(piece: &[u8]) -> Option<usize>
    ensures { FirstNewline piece.now result }
{
    piece.iter().position(|&b| b == b'\n')
}

// More bytes of the line behind those that are held; what there is no room for is dropped.
fn hold(text: &[u8], line: &mut [u8], held: usize) -> usize
    requires { held ≤ length line.old }
    ensures { Holds line.old held text.now line.new result }
{
    let n = text.len().min(line.len() - held);
    copy_into(line, held, &text[..n]);
    held + n
}

/// The piece from `from` on, up to the newline or the end. The newline is passed over.
pub fn gather(piece: &[u8], from: usize, line: &mut [u8], held: usize) -> Gathered
    requires { (from ≤ length piece.now) × (held ≤ length line.old) }
    ensures { Gathers piece.now from line.old held result line.new }
{
    let rest = &piece[from..];
    match line_end(rest) {
        Some(n) => Gathered {
            held: hold(&rest[..n], line, held),
            next: Some(from + n + 1),
        },
        None => Gathered {
            held: hold(rest, line, held),
            next: None,
        },
    }
}
