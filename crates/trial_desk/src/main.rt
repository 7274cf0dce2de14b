// Prints the desk's text of stored sheets. Standard input has the sheets, each behind its length in two bytes, high byte first.
#![tactic(auto)]

use desk_print::print_text;
use std::io;
use trial::{BOOK, Items, read_full};

fn main(rt: HostRuntime) -> io::Result<()> {
    let mut book = [0u8; BOOK];
    let n = read_full(&mut rt.stdin(), &mut book)?;
    let mut out = rt.stdout();
    for sheet in Items::new(&book[..n]) {
        print_text(&mut out, sheet)?;
    }
    Ok(())
}
