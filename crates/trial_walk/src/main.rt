// Runs stored drawings through the walk. Standard input has sheets, each behind a work limit in three bytes and its length in two, high
// byte first. Of each drawing it prints how many loops, candidates and assumptions there are, and the three words of each solid or why
// there is none; or what refuses it.
#![tactic(auto)]

ghost use Rattle.std.specs.Prelude.{length};
ghost use Rattle.std.specs.Iterator.{at_most};
ghost use Rattle.paper_laws.specs.InRange.{Held, PassedLists};
ghost use Rattle.walk.specs.Tally.{Roomy};
ghost use Rattle.trial_walk.specs.Asked.{WalkingTables};

use drawing_lists::lend::lent;
use paper::{Drawing, FACE_ROOM, FILL, MOST_CANDIDATES, MOST_EDGES, Number, SOLID_ROOM, WORDS};
use std::io::{self, Stdout};
use trial::{first_item, read_full, say, say_count, say_refused};
use walk::search;
use walk::tally::Tally;
use walk_input::rows::Counts;
use walk_input::tables;

const BOOK: usize = 131072;

fn say_solid(out: &mut Stdout, taken: u64, turned: u64, six: u64) -> io::Result<()> {
    say_count(out, b" solid ", taken)?;
    say_count(out, b" ", turned)?;
    say_count(out, b" ", six)
}

fn say_solids(out: &mut Stdout, t: Tally, words: &[u64; SOLID_ROOM]) -> io::Result<()>
    requires { Roomy t words.now }
{
    let n = t.found;
    for k in 0..n {
        say_solid(
            out,
            words[WORDS * k],
            words[WORDS * k + 1],
            words[WORDS * k + 2],
        )?;
    }
    Ok(())
}

fn say_end(out: &mut Stdout, t: Tally, words: &[u64; SOLID_ROOM]) -> io::Result<()>
    requires { Roomy t words.now }
{
    if t.ended == Number::MANY.value {
        return say(out, b" many");
    }
    if t.ended == Number::TOO_LONG.value {
        return say(out, b" too long");
    }
    if t.found == 0 {
        return say(out, b" no solid");
    }
    say_solids(out, t, words)
}

fn show_walk(
    out: &mut Stdout,
    on: &[u64; MOST_EDGES],
    up: &[u64; MOST_EDGES],
    m: usize,
    sides: &[u64; MOST_CANDIDATES],
    clashes: &[u64; MOST_CANDIDATES],
    sixes: &[i64; MOST_CANDIDATES],
    c: Counts,
    limit: u64,
) -> io::Result<()>
    requires { WalkingTables m sixes.now c }
{
    let mut words = [0u64; SOLID_ROOM];
    let n = c.candidates;
    let t = search(on, up, m, sides, clashes, sixes, n, limit, &mut words);
    say_count(out, b"loops ", c.loops as u64)?;
    say_count(out, b" candidates ", n as u64)?;
    say_count(out, b" work ", t.work)?;
    say_end(out, t, &words)?;
    say(out, b"\n")
}

fn show_tables(out: &mut Stdout, xyz: &[i64], ends: &[u8], limit: u64) -> io::Result<()>
    requires { PassedLists xyz.now ends.now }
{
    let mut rows = [FILL; FACE_ROOM];
    let mut on = [0u64; MOST_EDGES];
    let mut up = [0u64; MOST_EDGES];
    let mut sides = [0u64; MOST_CANDIDATES];
    let mut clashes = [0u64; MOST_CANDIDATES];
    let mut sixes = [0i64; MOST_CANDIDATES];
    let tabled = tables(
        xyz,
        ends,
        &mut rows,
        &mut on,
        &mut up,
        &mut sides,
        &mut clashes,
        &mut sixes,
    );
    match tabled {
        Err(r) => say_refused(out, r.number, r.place),
        Ok(c) => {
            let m = ends.len() / 2;
            show_walk(out, &on, &up, m, &sides, &clashes, &sixes, c, limit)
        }
    }
}

fn show_lists(out: &mut Stdout, xyz: &[i64], ends: &[u8], limit: u64) -> io::Result<()> {
    match lent(xyz, ends) {
        Err(r) => say_refused(out, r.number, r.place),
        Ok(()) => show_tables(out, xyz, ends, limit),
    }
}

fn show_drawing(out: &mut Stdout, d: Drawing, limit: u64) -> io::Result<()>
    requires { Held d }
{
    let xyz = d.xyz;
    let ends = d.ends;
    let m = 3 * d.vertices;
    let n = 2 * d.edges;
    show_lists(out, &xyz[..m], &ends[..n], limit)
}

fn show(out: &mut Stdout, s: &[u8], limit: u64) -> io::Result<()> {
    match sheet_reader::read_sheet(s) {
        Err(r) => say_refused(out, r.number, r.place),
        Ok(drawing) => show_drawing(out, drawing, limit),
    }
}

// The sheets of a stored book, each with the work limit that stands before it in three bytes, high byte first; up to the first that is
// not whole.
#[derive(Drop)]
struct Limited<'a>(&'a [u8]);

impl<'a> Iterator for Limited<'a> {
    type Item = (u64, &'a [u8]);

    ghost remaining = { λ s. at_most (length s.0.now) };

    fn next(&mut self) -> Option<(u64, &'a [u8])> {
        let ([high, middle, low], behind) = self.0.split_first_chunk::<3>()?;
        let limit = 65536 * u64::from(*high) + 256 * u64::from(*middle) + u64::from(*low);
        let (sheet, behind) = first_item(behind)?;
        self.0 = behind;
        Some((limit, sheet))
    }
}

fn main(rt: HostRuntime) -> io::Result<()> {
    let mut book = [0u8; BOOK];
    let n = read_full(&mut rt.stdin(), &mut book)?;
    let mut out = rt.stdout();
    for (limit, sheet) in Limited(&book[..n]) {
        show(&mut out, sheet, limit)?;
    }
    Ok(())
}
