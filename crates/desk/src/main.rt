// The desk program: reads one sheet from standard input and prints what document 01 says of it. Nothing is assumed of the input.
#![tactic(auto)]

ghost use Rattle.desk.specs.Input.{TakenFrom, WithinRoom};

use desk_print::{print_all, print_text};
use paper::SHEET_ROOM;
use std::io::{self, Read};

// A byte more than the longest sheet has, so that a longer input is seen to be longer.
const INPUT_ROOM: usize = SHEET_ROOM + 1;

// Reads until the room is full or the input ends; none where it can't be read.
fn read_input<R: Read>(input: &mut R, room: &mut [u8]) -> Option<usize>
    ensures within { WithinRoom room.new result }
    ensures taken { TakenFrom (R.remaining input.old) (R.remaining input.new) room.new result }
{
    let mut at: usize = 0;
    while at < room.len() {
        let more = match input.read(&mut room[at..]) {
            Ok(more) => more,
            Err(_) => return None,
        };
        if more == 0 {
            return Some(at);
        }
        at += more;
    }
    Some(at)
}

// That the input can't be read is said where the text is looked for.
fn main(rt: HostRuntime) -> io::Result<()> {
    let mut sheet = [0u8; INPUT_ROOM];
    match read_input(&mut rt.stdin(), &mut sheet) {
        None => print_all(&mut rt.stdout(), b"cannot read standard input\n"),
        Some(n) => print_text(&mut rt.stdout(), &sheet[..n]),
    }
}
