// Runs stored drawings through the loop search and the candidates. Standard input has sheets, each behind its length in two bytes, high
// byte first. Of each drawing it prints how many loops and candidates there are, each with a checksum of their rows and words, or what
// refuses it.
#![tactic(auto)]

ghost use Rattle.std.specs.Prelude.{◌<◌};
ghost use Rattle.paper_laws.specs.InRange.{Held, PassedLists};
ghost use Rattle.loop_known.specs.Known.{DrawnBy};
ghost use Rattle.loop_cover.specs.Known.{Known};
ghost use Rattle.trial_loops.specs.Sums.{prime};

use candidates::candidates;
use drawing_links::neighbours;
use drawing_lists::lend::lent;
use drawing_rules::drawing_rules;
use loop_known::known_loops;
use loop_words::{PAIRS, number_edges};
use paper::{
    Drawing, FACE_ROOM, FILL, LOOP_ROOM, MOST_CANDIDATES, MOST_LOOPS, MOST_VERTICES, Number, ROW,
};
use std::io::{self, Stdout};
use trial::{Items, read_full, say, say_count, say_refused};

// Room for the corpus.
const BOOK: usize = 65536;

const PRIME: u64 = 4294967291;

// A checksum with one more number.
fn more(sum: u64, n: u64) -> u64
    requires { sum < prime }
    ensures { result < prime }
{
    (31 * sum + n % PRIME) % PRIME
}

// A checksum with the bytes of a row.
fn more_row(row: &[u8], sum: u64) -> u64
    requires { sum < prime }
    ensures { result < prime }
{
    let mut s = sum;
    for byte in row {
        s = more(s, u64::from(*byte));
    }
    s
}

// The checksum of rows with two words each.
fn candidates_sum(rows: &[u8], corners: &[u64], sides: &[u64]) -> u64 {
    let mut s = 0;
    for ((row, corner), side) in rows.chunks_exact(ROW).zip(corners).zip(sides) {
        s = more(more(more_row(row, s), *corner), *side);
    }
    s
}

// The checksum of rows with three words each.
fn loops_sum(table: &[u8], corners: &[u64], sides: &[u64], planes: &[u64]) -> u64 {
    let mut s = 0;
    for (((row, corner), side), plane) in table
        .chunks_exact(ROW)
        .zip(corners)
        .zip(sides)
        .zip(planes)
    {
        s = more(more(more(more_row(row, s), *corner), *side), *plane);
    }
    s
}

fn show_candidates(
    out: &mut Stdout,
    xyz: &[i64],
    ends: &[u8],
    table: &[u8],
    n: usize,
    corners: &[u64; MOST_LOOPS],
    sides: &[u64; MOST_LOOPS],
    planes: &[u64; MOST_LOOPS],
) -> io::Result<()>
    requires { Known xyz.now ends.now table.now n corners.now sides.now planes.now }
{
    let mut rows = [FILL; FACE_ROOM];
    let mut kept_corners = [0u64; MOST_CANDIDATES];
    let mut kept_sides = [0u64; MOST_CANDIDATES];
    let c = candidates(
        xyz,
        ends,
        table,
        n,
        corners,
        sides,
        planes,
        &mut rows,
        &mut kept_corners,
        &mut kept_sides,
    );
    if MOST_CANDIDATES < c {
        return say_refused(out, Number::MANY_CANDIDATES, 0);
    }
    let sum = candidates_sum(&rows, &kept_corners[..c], &kept_sides[..c]);
    say_count(out, b"candidates ", c as u64)?;
    say_count(out, b" ", sum)?;
    say(out, b"\n")
}

fn show_loops(
    out: &mut Stdout,
    xyz: &[i64],
    ends: &[u8],
    near: &[u64; MOST_VERTICES],
    number: &[u8; PAIRS],
) -> io::Result<()>
    requires { DrawnBy xyz.now ends.now near.now number.now }
{
    let mut table = [0u8; LOOP_ROOM];
    let mut planes = [0u64; MOST_LOOPS];
    let mut corners = [0u64; MOST_LOOPS];
    let mut sides = [0u64; MOST_LOOPS];
    let n = known_loops(
        xyz,
        near,
        number,
        &mut table,
        &mut planes,
        &mut corners,
        &mut sides,
    );
    if MOST_LOOPS < n {
        return say_refused(out, Number::MANY_LOOPS, 0);
    }
    let sum = loops_sum(&table, &corners[..n], &sides[..n], &planes[..n]);
    say_count(out, b"loops ", n as u64)?;
    say_count(out, b" ", sum)?;
    say(out, b" ")?;
    show_candidates(out, xyz, ends, &table, n, &corners, &sides, &planes)
}

fn show_rules(out: &mut Stdout, xyz: &[i64], ends: &[u8]) -> io::Result<()>
    requires { PassedLists xyz.now ends.now }
{
    let near = neighbours(ends, xyz.len() / 3);
    match drawing_rules(xyz, ends, &near) {
        Err(r) => say_refused(out, r.number, r.place),
        Ok(()) => {
            let number = number_edges(ends);
            show_loops(out, xyz, ends, &near, &number)
        }
    }
}

fn show_lists(out: &mut Stdout, xyz: &[i64], ends: &[u8]) -> io::Result<()> {
    match lent(xyz, ends) {
        Err(r) => say_refused(out, r.number, r.place),
        Ok(()) => show_rules(out, xyz, ends),
    }
}

fn show_drawing(out: &mut Stdout, d: Drawing) -> io::Result<()>
    requires { Held d }
{
    let xyz = d.xyz;
    let ends = d.ends;
    let m = 3 * d.vertices;
    let n = 2 * d.edges;
    show_lists(out, &xyz[..m], &ends[..n])
}

fn show(out: &mut Stdout, s: &[u8]) -> io::Result<()> {
    match sheet_reader::read_sheet(s) {
        Err(r) => say_refused(out, r.number, r.place),
        Ok(drawing) => show_drawing(out, drawing),
    }
}

fn main(rt: HostRuntime) -> io::Result<()> {
    let mut book = [0u8; BOOK];
    let n = read_full(&mut rt.stdin(), &mut book)?;
    let mut out = rt.stdout();
    for sheet in Items::new(&book[..n]) {
        show(&mut out, sheet)?;
    }
    Ok(())
}
