// The text of a conversion's answer, put into a room from its start on. Assumes that there is room, and the words of at most eight solids.
ghost use Rattle.paper.specs.Desk.{answer_text};
ghost use Rattle.desk_lines.specs.Put.{Fits, Puts};
ghost use Rattle.desk_text.specs.Texts.{head_of, ended_of, report_of, refused_of, HeadIs, Reporting, Answering};

use desk_lines::{put_field, put_pair, put_text};
use desk_solids::put_solids;
use paper::{Conversion, Refusal};

// The counts that stand in a sheet.
#[derive(Clone, Copy)]
pub struct SheetCounts {
    pub vertices: u64,
    pub edges: u64,
}

// "Fields: vertices, edges; loops, candidates; assumptions"
#[derive(Clone, Copy)]
pub struct Head {
    pub vertices: u64,
    pub edges: u64,
    pub loops: usize,
    pub candidates: usize,
    pub work: u64,
}

// Each function answers the place behind what it put.
fn put_head(h: Head, room: &mut [u8]) -> usize
    requires { Fits 0 (head_of h) room.old }
    ensures { Puts room.old 0 (head_of h) room.new result }
{
    let wired = put_pair(b"wire ", h.vertices, b" ", h.edges, 0, room);
    let counted = put_pair(
        b"\nloops ",
        h.loops as u64,
        b" candidates ",
        h.candidates as u64,
        wired,
        room,
    );
    let worked = put_field(b"\nwork ", h.work, counted, room);
    put_text(b"\n", worked, room)
}

// "For 17 to 19 the line after `work` is the last"
fn put_ended(h: Head, last: &[u8], room: &mut [u8]) -> usize
    requires { Fits 0 (ended_of h last.now) room.old }
    ensures { Puts room.old 0 (ended_of h last.now) room.new result }
{
    let at = put_head(h, room);
    put_text(last, at, room)
}

// A report of n solids.
fn put_report(h: Head, n: usize, words: &[u64], room: &mut [u8]) -> usize
    requires { Reporting h n words.now room.old }
    ensures { Puts room.old 0 (report_of h n words.now) room.new result }
{
    let at = put_head(h, room);
    let counted = put_field(b"solids ", n as u64, at, room);
    let ended = put_text(b"\n", counted, room);
    put_solids(n, words, ended, room)
}

// "for another refusal the only line is `refused`, number, place"
fn put_refused(r: Refusal, room: &mut [u8]) -> usize
    requires { Fits 0 (refused_of r) room.old }
    ensures { Puts room.old 0 (refused_of r) room.new result }
{
    let named = put_pair(
        b"refused ",
        u64::from(r.number),
        b" ",
        r.place as u64,
        0,
        room,
    );
    put_text(b"\n", named, room)
}

fn headed(s: SheetCounts, loops: usize, candidates: usize, work: u64) -> Head
    ensures { HeadIs s loops candidates work result }
{
    Head {
        vertices: s.vertices,
        edges: s.edges,
        loops: loops,
        candidates: candidates,
        work: work,
    }
}

pub fn put_answer(s: SheetCounts, answer: Conversion, words: &[u64], room: &mut [u8]) -> usize
    requires { Answering s answer words.now room.old }
    ensures { Puts room.old 0 (answer_text s.vertices s.edges answer words.now)
        room.new result }
{
    match answer {
        Conversion::One {
            loops,
            candidates,
            work,
            six: _,
        } => put_report(headed(s, loops, candidates, work), 1, words, room),
        Conversion::Several {
            loops,
            candidates,
            work,
            solids,
        } => put_report(headed(s, loops, candidates, work), solids, words, room),
        Conversion::NoSolid {
            loops,
            candidates,
            work,
        } => put_ended(headed(s, loops, candidates, work), b"no solid\n", room),
        Conversion::Many {
            loops,
            candidates,
            work,
        } => put_ended(headed(s, loops, candidates, work), b"many\n", room),
        Conversion::TooLong {
            loops,
            candidates,
            work,
        } => put_ended(headed(s, loops, candidates, work), b"too long\n", room),
        Conversion::Refused(r) => put_refused(r, room),
    }
}
