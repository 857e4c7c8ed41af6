// A table written on standard output: each word's digits with its start mark and its row.

use code::{Code, Word};
use std::io;
use std::io::Print;

const DIGITS: [u8; Word::ALPHABET as usize] = *b"0123456789ABCDEF";

fn write_digit(rt: &impl Print, symbol: u8) -> io::Result<()> {
    rt.write_all(&[*DIGITS.get(symbol as usize).unwrap_or(&b'?')])
}

// Writes the first n entries as digits.
fn write_digits(rt: &impl Print, entries: &[u8], n: usize) -> io::Result<()> {
    for entry in entries.iter().take(n) {
        write_digit(rt, *entry)?;
    }
    Ok(())
}

pub fn write_table(rt: &impl Print, table: Code) -> io::Result<()> {
    let n = table.count;
    let words = table.words.iter().zip(table.begins.iter());
    for ((word, begins), row) in words.zip(table.rows.iter()).take(n) {
        rt.write_all(b" ")?;
        write_digits(rt, &word.symbols, word.len)?;
        rt.write_all(b"/")?;
        write_digit(rt, *begins)?;
        rt.write_all(b"/")?;
        write_digits(rt, &row.entries, n)?;
    }
    Ok(())
}
