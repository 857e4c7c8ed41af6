// Lists of symbols or words, as text: numbers with commas between. n*c stands for c times n, and - for the empty list.

ghost use Rattle.std.specs.Prelude.{◌≤◌, length};

use std::io;
use std::io::Print;
use try_common::fields::number_of;

// Runs of more equal entries than this are written as n*c.
const WHOLE: usize = 8;

// Puts what one item stands for at `at`, as far as there is room, and gives the place after it.
fn put_item(item: &[u8], out: &mut [u8], at: usize) -> usize
    requires { at ≤ length out.old }
    ensures { result ≤ length out.new }
{
    let star = item.iter().position(|byte| *byte == b'*');
    let (n, times) = match star {
        Some(star) => (number_of(&item[..star]), number_of(&item[star..])),
        None => (number_of(item), 1),
    };
    let Ok(n) = u8::try_from(n) else {
        return at;
    };
    let end = at.saturating_add(times).min(out.len());
    out[at..end].fill(n);
    end
}

// Puts the entries of a list at the start of `out`, and gives how many there are. A comma ends its item, so that one at the end begins no other.
pub fn put(text: &[u8], out: &mut [u8]) -> usize
    ensures { result ≤ length out.new }
{
    if text == b"-".as_slice() {
        return 0;
    }
    let mut at: usize = 0;
    for item in text.split_inclusive(|byte| *byte == b',') {
        at = put_item(item, out, at);
    }
    at
}

// Writes a run of equal entries.
fn write_run(rt: &impl Print, run: &[u8]) -> io::Result<()> {
    if let [entry, ..] = run
        && WHOLE < run.len()
    {
        return print!(rt; "{entry}*{}", run.len());
    }
    for (i, entry) in run.iter().enumerate() {
        if 0 < i {
            rt.write_all(b",")?;
        }
        rt.print(*entry)?;
    }
    Ok(())
}

// Writes a list.
fn write(rt: &impl Print, entries: &[u8]) -> io::Result<()> {
    if entries.is_empty() {
        rt.write_all(b"-")?;
    }
    for (i, run) in entries.chunk_by(|x, y| *x == *y).enumerate() {
        if 0 < i {
            rt.write_all(b",")?;
        }
        write_run(rt, run)?;
    }
    Ok(())
}

// Writes the first n entries of a buffer that has as many.
pub fn write_first(rt: &impl Print, buffer: &[u8], n: usize) -> io::Result<()> {
    match buffer.get(..n) {
        Some(entries) => write(rt, entries),
        None => rt.write_all(b"?"),
    }
}
