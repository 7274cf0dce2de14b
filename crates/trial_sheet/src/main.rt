// Runs a stored corpus of sheets through the reader and the writer. Standard input has the sheets, each behind its length in two bytes,
// high byte first. Of each it prints what the reader says and, of a drawing, what the writer makes of it again, byte by byte.
#![tactic(auto)]

use std::io::{self, Stdout, Write};
use trial::{Items, read_full, say, say_count, say_refused};

// Room for the corpus.
const BOOK: usize = 65536;

// The first n bytes, in two hexadecimal digits each.
fn say_bytes(out: &mut Stdout, bytes: &[u8], n: usize) -> io::Result<()> {
    for byte in bytes.iter().take(n) {
        write!(out, "{byte:02x}")?;
    }
    say(out, b"\n")
}

// The drawing, written again.
fn show_drawing(
    out: &mut Stdout,
    v: usize,
    e: usize,
    xyz: [i64; paper::COORDINATES],
    ends: [u8; paper::ENDS],
) -> io::Result<()> {
    if paper::MOST_VERTICES < v {
        return Ok(());
    }
    if paper::MOST_EDGES < e {
        return Ok(());
    }
    let m = 3 * v;
    let n = 2 * e;
    let mut room = [0u8; paper::SHEET_ROOM];
    let written = sheet_writer::write_sheet(&xyz[..m], &ends[..n], &mut room);
    say_count(out, b"drawing ", v as u64)?;
    say_count(out, b" ", e as u64)?;
    say(out, b"\n")?;
    match written {
        Err(r) => say_refused(out, r.number, r.place),
        Ok(k) => say_bytes(out, &room, k),
    }
}

fn show(out: &mut Stdout, s: &[u8]) -> io::Result<()> {
    match sheet_reader::read_sheet(s) {
        Err(r) => say_refused(out, r.number, r.place),
        Ok(d) => show_drawing(out, d.vertices, d.edges, d.xyz, d.ends),
    }
}

fn main(rt: HostRuntime) -> io::Result<()> {
    let mut book = [0u8; BOOK];
    let n = read_full(&mut rt.stdin(), &mut book)?;
    let mut out = rt.stdout();
    for sheet in Items::new(&book[..n]) {
        show(&mut out, sheet)?;
    }
    Ok(())
}
