// Puts stored drawings to rules 11 to 14, to cover and to clash. Standard input has sheets, each behind its length in two bytes, high byte
// first. Of each drawing it prints what refuses it; or a line with a digit for each loop, 1 where it covers another, and a line with a word
// for each candidate, of those that it clashes with.
#![tactic(auto)]

ghost use Rattle.std.specs.Prelude.{◌≤◌};
ghost use Rattle.paper.specs.Numbers.{most_candidates};
ghost use Rattle.paper_laws.specs.InRange.{Held, PassedLists};
ghost use Rattle.loop_cover.specs.Known.{Known};
ghost use Rattle.loop_known.specs.Known.{DrawnBy};

use drawing_links::neighbours;
use drawing_lists::lend::lent;
use drawing_rules::drawing_rules;
use loop_cover::covers_other;
use loop_known::known_loops;
use loop_words::{PAIRS, number_edges};
use paper::{
    Drawing, FACE_ROOM, FILL, LOOP_ROOM, MOST_CANDIDATES, MOST_EDGES, MOST_LOOPS, MOST_VERTICES,
    Number,
};
use std::io::{self, Stdout};
use trial::{Items, read_full, say, say_count, say_refused};
use walk_input::tables;

// Room for the corpus.
const BOOK: usize = 65536;

// A digit for each of the n loops.
fn say_covers(
    out: &mut Stdout,
    xyz: &[i64],
    ends: &[u8],
    table: &[u8],
    n: usize,
    corners: &[u64; MOST_LOOPS],
    sides: &[u64; MOST_LOOPS],
    planes: &[u64; MOST_LOOPS],
) -> io::Result<()>
    requires { Known xyz.now ends.now table.now n corners.now sides.now planes.now }
{
    say(out, b"covers ")?;
    for k in 0..n {
        if covers_other(xyz, ends, table, n, corners, sides, planes, k) {
            say(out, b"1")?;
        } else {
            say(out, b"0")?;
        }
    }
    say(out, b"\n")
}

fn show_covers(
    out: &mut Stdout,
    xyz: &[i64],
    ends: &[u8],
    near: &[u64; MOST_VERTICES],
    number: &[u8; PAIRS],
) -> io::Result<()>
    requires { DrawnBy xyz.now ends.now near.now number.now }
{
    let mut table = [0u8; LOOP_ROOM];
    let mut planes = [0u64; MOST_LOOPS];
    let mut corners = [0u64; MOST_LOOPS];
    let mut sides = [0u64; MOST_LOOPS];
    let n = known_loops(
        xyz,
        near,
        number,
        &mut table,
        &mut planes,
        &mut corners,
        &mut sides,
    );
    if MOST_LOOPS < n {
        return say_refused(out, Number::MANY_LOOPS, 0);
    }
    say_covers(out, xyz, ends, &table, n, &corners, &sides, &planes)
}

// The words of the n candidates.
fn say_clashes(out: &mut Stdout, clashes: &[u64; MOST_CANDIDATES], n: usize) -> io::Result<()>
    requires { n ≤ most_candidates }
{
    say(out, b"clashes")?;
    for word in &clashes[..n] {
        say_count(out, b" ", *word)?;
    }
    say(out, b"\n")
}

fn show_clashes(out: &mut Stdout, xyz: &[i64], ends: &[u8]) -> io::Result<()>
    requires { PassedLists xyz.now ends.now }
{
    let mut rows = [FILL; FACE_ROOM];
    let mut on = [0u64; MOST_EDGES];
    let mut up = [0u64; MOST_EDGES];
    let mut sides = [0u64; MOST_CANDIDATES];
    let mut clashes = [0u64; MOST_CANDIDATES];
    let mut sixes = [0i64; MOST_CANDIDATES];
    let tabled = tables(
        xyz,
        ends,
        &mut rows,
        &mut on,
        &mut up,
        &mut sides,
        &mut clashes,
        &mut sixes,
    );
    match tabled {
        Err(r) => say_refused(out, r.number, r.place),
        Ok(c) => say_clashes(out, &clashes, c.candidates),
    }
}

fn show_rules(out: &mut Stdout, xyz: &[i64], ends: &[u8]) -> io::Result<()>
    requires { PassedLists xyz.now ends.now }
{
    let near = neighbours(ends, xyz.len() / 3);
    match drawing_rules(xyz, ends, &near) {
        Err(r) => say_refused(out, r.number, r.place),
        Ok(()) => {
            let number = number_edges(ends);
            show_covers(out, xyz, ends, &near, &number)?;
            show_clashes(out, xyz, ends)
        }
    }
}

fn show_lists(out: &mut Stdout, xyz: &[i64], ends: &[u8]) -> io::Result<()> {
    match lent(xyz, ends) {
        Err(r) => say_refused(out, r.number, r.place),
        Ok(()) => show_rules(out, xyz, ends),
    }
}

fn show_drawing(out: &mut Stdout, d: Drawing) -> io::Result<()>
    requires { Held d }
{
    let xyz = d.xyz;
    let ends = d.ends;
    let m = 3 * d.vertices;
    let n = 2 * d.edges;
    show_lists(out, &xyz[..m], &ends[..n])
}

fn show(out: &mut Stdout, s: &[u8]) -> io::Result<()> {
    match sheet_reader::read_sheet(s) {
        Err(r) => say_refused(out, r.number, r.place),
        Ok(drawing) => show_drawing(out, drawing),
    }
}

fn main(rt: HostRuntime) -> io::Result<()> {
    let mut book = [0u8; BOOK];
    let n = read_full(&mut rt.stdin(), &mut book)?;
    let mut out = rt.stdout();
    for sheet in Items::new(&book[..n]) {
        show(&mut out, sheet)?;
    }
    Ok(())
}
