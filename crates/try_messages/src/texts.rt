// Trials of splitting: lends the buffers, writes the answer, and what the buffers hold then.

ghost use Rattle.std.specs.Prelude.{◌≤◌, length};

use crate::{buffers, class_sheets, lists, tables, trials};
use code::{ByteCount, Classes, Enlarged, Refusal};
use std::io;
use std::io::Print;
use try_common::buffers::{BEFORE, State, WORK_BEFORE, is_kept};
use try_common::fields::{field, number_within};
use try_common::results::write_refusal;

// What stands before a text that is given by its bytes.
const QUOTE: &[u8] = b"'";

// Whether the text of a trial is given by its bytes.
fn is_quoted(line: &[u8]) -> bool {
    field(line, 2).starts_with(QUOTE)
}

// Puts bytes at the start of `out`, if there is room, and gives how many are put.
fn put_bytes(bytes: &[u8], out: &mut [u8]) -> usize
    ensures { result ≤ length out.new }
{
    let n = bytes.len();
    if out.len() < n {
        return 0;
    }
    out[..n].copy_from_slice(bytes);
    n
}

fn put_text(line: &[u8], out: &mut [u8]) -> usize
    ensures { result ≤ length out.new }
{
    match field(line, 2).strip_prefix(QUOTE) {
        Some(bytes) => put_bytes(bytes, out),
        None => trials::put_list(line, out),
    }
}

// Writes the first n bytes of an output, as the text was given.
fn write_output(rt: &impl Print, quoted: bool, out: &[u8], n: usize) -> io::Result<()> {
    if !quoted {
        return lists::write_first(rt, out, n);
    }
    if let Some(bytes) = out.get(..n) {
        rt.write_all(bytes)?;
    }
    Ok(())
}

// Writes the answer to splitting, and gives how many bytes it says are written.
fn write_splitting(
    rt: &impl Print,
    answer: Result<ByteCount, Refusal>,
    quoted: bool,
    out: &[u8],
) -> io::Result<usize> {
    match answer {
        Ok(n) => {
            rt.write_all(b"split ")?;
            write_output(rt, quoted, out, n.0)?;
            Ok(n.0)
        }
        Err(r) => {
            write_refusal(rt, r)?;
            Ok(0)
        }
    }
}

fn split_in(
    rt: &impl Print,
    value: Enlarged,
    letters: Classes,
    quoted: bool,
    text: &[u8],
    out: &mut [u8],
    message: &mut [u8],
    first: &mut [u8],
    second: &mut [u8],
    work: &mut [u64],
) -> io::Result<()> {
    let answer = text_split::split(value, letters, text, out, message, first, second, work);
    let n = write_splitting(rt, answer, quoted, out)?;
    buffers::write_kept(rt, is_kept(out, n))?;
    print!(rt; "; message {}", State::of(message))?;
    print!(rt; "; readings {} {}", State::of(first), State::of(second))?;
    buffers::write_work(rt, work)
}

fn split_by(rt: &impl Print, line: &[u8], value: Enlarged, letters: Classes) -> io::Result<()> {
    let mut text = [0u8; trials::ENTRIES];
    let n = put_text(line, &mut text);
    let a = number_within(line, 3, buffers::OUTPUT);
    let b = number_within(line, 4, buffers::ROOM);
    let c = number_within(line, 5, buffers::ROOM);
    let d = number_within(line, 6, buffers::ROOM);
    let e = number_within(line, 7, buffers::ROOM);
    let mut out = [BEFORE; buffers::OUTPUT];
    let mut message = [BEFORE; buffers::ROOM];
    let mut first = [BEFORE; buffers::ROOM];
    let mut second = [BEFORE; buffers::ROOM];
    let mut work = [WORK_BEFORE; buffers::ROOM];
    split_in(
        rt,
        value,
        letters,
        is_quoted(line),
        &text[..n],
        &mut out[..a],
        &mut message[..b],
        &mut first[..c],
        &mut second[..d],
        &mut work[..e],
    )
}

// By the Turkish letters.
pub fn split(rt: &HostRuntime, line: &[u8]) -> io::Result<()> {
    let value = tables::of_trial(rt, line, 8);
    split_by(rt, line, value, turkish_letters::turkish())
}

// By the letters of a class sheet.
pub fn split_lettered(rt: &HostRuntime, line: &[u8]) -> io::Result<()> {
    let value = tables::of_trial(rt, line, 9);
    split_by(rt, line, value, class_sheets::of_trial(rt, line, 8))
}
