// Checks stored face lists, each against a stored sheet, and prints what is said of each. Standard input has sheets, each with a face list
// behind it, all behind their lengths in two bytes, high byte first.
#![tactic(auto)]

use std::io::{self, Stdout};
use trial::{BOOK, Items, read_full, say, say_refused};
use verdict::check_sheet;

fn show(out: &mut Stdout, sheet: &[u8], list: &[u8]) -> io::Result<()> {
    match check_sheet(sheet, list) {
        Err(r) => say_refused(out, r.number, r.place),
        Ok(()) => say(out, b"accepted\n"),
    }
}

fn main(rt: HostRuntime) -> io::Result<()> {
    let mut book = [0u8; BOOK];
    let n = read_full(&mut rt.stdin(), &mut book)?;
    let mut out = rt.stdout();
    let mut items = Items::new(&book[..n]);
    while let Some(sheet) = items.next() {
        let Some(list) = items.next() else {
            break;
        };
        show(&mut out, sheet, list)?;
    }
    Ok(())
}
