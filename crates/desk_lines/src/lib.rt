// Parts of a line put into a room behind one another: a text, a number in decimal digits, both. Assumes that there is room.
#![tactic(auto)]

ghost use Rattle.std.specs.Prelude.{◌<◌};
ghost use Rattle.paper.specs.Desk.{decimal};
ghost use Rattle.desk_lines.specs.Put.{Fits, Puts, digit_text, field_text, pair_text};

use rooms::copy;

// Each function answers the place behind what it put.
pub fn put_text(text: &[u8], at: usize, room: &mut [u8]) -> usize
    requires { Fits at text.now room.old }
    ensures { Puts room.old at text.now room.new result }
{
    copy(text, text.len(), &mut room[at..]);
    at + text.len()
}

fn put_digit(d: u64, at: usize, room: &mut [u8]) -> usize
    requires { (d < 10) × Fits at (digit_text d) room.old }
    ensures { Puts room.old at (digit_text d) room.new result }
{
    room[at] = b'0' + d as u8;
    at + 1
}

// "a number in as many decimal digits as it needs"
pub fn put_decimal(n: u64, at: usize, room: &mut [u8]) -> usize
    requires { Fits at (decimal n) room.old }
    ensures { Puts room.old at (decimal n) room.new result }
{
    if n < 10 {
        return put_digit(n, at, room);
    }
    let last = put_decimal(n / 10, at, room);
    put_digit(n % 10, last, room)
}

pub fn put_field(name: &[u8], n: u64, at: usize, room: &mut [u8]) -> usize
    requires { Fits at (field_text name.now n) room.old }
    ensures { Puts room.old at (field_text name.now n) room.new result }
{
    let next = put_text(name, at, room);
    put_decimal(n, next, room)
}

pub fn put_pair(name: &[u8], n: u64, other: &[u8], m: u64, at: usize, room: &mut [u8]) -> usize
    requires { Fits at (pair_text name.now n other.now m) room.old }
    ensures { Puts room.old at (pair_text name.now n other.now m) room.new result }
{
    let next = put_field(name, n, at, room);
    put_field(other, m, next, room)
}
