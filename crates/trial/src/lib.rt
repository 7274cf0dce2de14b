// What the trial programs share: the items of a stored book, and lines of what is said of them. Assumes nothing.
#![tactic(auto)]

ghost use Rattle.std.specs.Prelude.{◌≡◌, ◌+◌, ◌≤◌, ◌<◌, [], ◌∷◌, ◌++◌, length, take};
ghost use Rattle.std.specs.Prelude.{IfOk, OnOk, IfSome, MatchOption};
ghost use Rattle.std.specs.Iterator.{YieldsFirstRef, item_count};
ghost use Rattle.std.specs.Io.KnownBytes.{Appends, Consumes, IsAtEnd};
ghost use Rattle.std.specs.Fmt.{decimal};
ghost use Rattle.paper.specs.Refusals.{value_of};
ghost use Rattle.trial.specs.Lines.{refused_line};
ghost use Rattle.trial.specs.Items.{items, items_left};

use paper::Number;
use std::io::{self, Read, Write};

// Room for a book.
pub const BOOK: usize = 262144;

// Reads until the room is full or the input ends, and answers how many bytes it put at the room's start.
pub fn read_full<R: Read>(input: &mut R, room: &mut [u8]) -> io::Result<usize>
    ensures within { IfOk result (λ n. n ≤ length room.new) }
    ensures taken { IfOk result (λ n. Consumes (R.remaining input.old) (R.remaining input.new)
        (take n room.new)) }
    ensures end { IfOk result (λ n. n < length room.new → IsAtEnd (R.remaining input.new)) }
{
    let mut at: usize = 0;
    while at < room.len() {
        let more = input.read(&mut room[at..])?;
        if more == 0 {
            break;
        }
        at += more;
    }
    Ok(at)
}

pub fn say<W: Write>(out: &mut W, text: &[u8]) -> io::Result<()>
    ensures { OnOk result (Appends (W.contents out.old) (W.contents out.new) text.now) }
{
    out.write_all(text)
}

// A number behind what it counts.
pub fn say_count<W: Write>(out: &mut W, what: &[u8], n: u64) -> io::Result<()>
    ensures { OnOk result (Appends (W.contents out.old) (W.contents out.new)
        (what.now ++ decimal n)) }
{
    say(out, what)?;
    write!(out, "{n}")
}

pub fn say_refused<W: Write>(out: &mut W, number: Number, place: usize) -> io::Result<()>
    ensures { OnOk result (Appends (W.contents out.old) (W.contents out.new)
        (refused_line (value_of number) place)) }
{
    let n = u64::from(number);
    writeln!(out, "refused {n} {place}")
}

// The item that a book begins with, behind its length in two bytes, high byte first, and what stands behind it; none where it is not
// whole.
pub fn first_item(book: &[u8]) -> Option<(&[u8], &[u8])>
    ensures first { MatchOption result (items book.now ≡ [])
        (λ p. items book.now ≡ p.0.now ∷ items p.1.now) }
    ensures bytes { IfSome result (λ p. 2 + length p.0.now + length p.1.now ≡ length book.now) }
{
    let (high, behind) = book.split_first()?;
    let (low, behind) = behind.split_first()?;
    let size = 256 * usize::from(*high) + usize::from(*low);
    behind.split_at_checked(size)
}

// The items of a stored book, up to the first that is not whole.
#[derive(Drop)]
pub struct Items<'a> {
    rest: &'a [u8],
}

impl<'a> Items<'a> {
    pub fn new(book: &'a [u8]) -> Items<'a>
        ensures { items_left result ≡ items book.now }
    {
        Items { rest: book }
    }
}

impl<'a> Iterator for Items<'a> {
    type Item = &'a [u8];

    ghost next_gives = { YieldsFirstRef items_left };

    ghost remaining = { item_count items_left };

    fn next(&mut self) -> Option<&'a [u8]> {
        let (item, behind) = first_item(self.rest)?;
        self.rest = behind;
        Some(item)
    }
}
