// A code with copies, and the verdict on it, written on standard output.

use code::{Enlarged, Pairs};
use std::io;
use std::io::Print;
use try_common::results::write_result;
use try_common::tables::write_table;

// Of each copy the word, and after which it stands.
fn write_copies(rt: &impl Print, e: Enlarged) -> io::Result<()> {
    let entries = e.origins.iter().zip(e.behind.iter());
    for (origin, behind) in entries.take(e.code.count).skip(e.originals) {
        print!(rt; ", {origin} after {behind}")?;
    }
    Ok(())
}

// The table, how many of its words are originals, and the copies.
pub fn write_value(rt: &impl Print, e: Enlarged) -> io::Result<()> {
    write_table(rt, e.code)?;
    print!(rt; "; originals {}", e.originals)?;
    write_copies(rt, e)?;
    rt.write_all(b"\r\n")
}

// The printed result of the verdict.
pub fn write_verdict(rt: &impl Print, e: Enlarged) -> io::Result<()> {
    let mut message = [0u8; Pairs::ROOM];
    let mut first = [0u8; Pairs::ROOM];
    let mut second = [0u8; Pairs::ROOM];
    let mut work = [0u64; Pairs::MARKS];
    let judgement = decipher::verdict(e, &mut message, &mut first, &mut second, &mut work);
    write_result(rt, judgement, &message, &first, &second)
}
