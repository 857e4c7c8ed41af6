// A trial: lends the buffers, writes the answer, and what the buffers hold then.

ghost use Rattle.std.specs.Prelude.{◌≤◌, length};

use crate::{buffers, lists, tables};
use code::{Enlarged, Readings, Refusal, SymbolCount};
use std::io;
use std::io::Print;
use try_common::buffers::{BEFORE, WORK_BEFORE, is_kept};
use try_common::fields::{field, number_within};
use try_common::results::write_refusal;

// The entries that there are for the words or the message of a trial.
pub const ENTRIES: usize = 100000;

// Puts the list in field 2 at the start of `out`, and gives how many entries it has.
pub fn put_list(line: &[u8], out: &mut [u8]) -> usize
    ensures { result ≤ length out.new }
{
    lists::put(field(line, 2), out)
}

// Writes the answer to encoding, and gives how many symbols it says are written.
fn write_encoding(
    rt: &impl Print,
    answer: Result<SymbolCount, Refusal>,
    message: &[u8],
) -> io::Result<usize> {
    match answer {
        Ok(n) => {
            rt.write_all(b"encoded ")?;
            lists::write_first(rt, message, n.0)?;
            Ok(n.0)
        }
        Err(r) => {
            write_refusal(rt, r)?;
            Ok(0)
        }
    }
}

fn encode_in(rt: &impl Print, value: Enlarged, words: &[u8], message: &mut [u8]) -> io::Result<()> {
    let answer = encoding::encode(value, words, message);
    let n = write_encoding(rt, answer, message)?;
    buffers::write_kept(rt, is_kept(message, n))
}

pub fn encode(rt: &HostRuntime, line: &[u8]) -> io::Result<()> {
    let value = tables::of_trial(rt, line, 4);
    let mut words = [0u8; ENTRIES];
    let n = put_list(line, &mut words);
    let room = number_within(line, 3, buffers::ROOM);
    let mut message = [BEFORE; buffers::ROOM];
    encode_in(rt, value, &words[..n], &mut message[..room])
}

// How many words of each reading are written.
#[derive(Clone, Copy, Default)]
struct Written {
    first: usize,
    second: usize,
}

// Writes the answer to reading, and gives how many words it says are written.
fn write_reading(
    rt: &impl Print,
    answer: Result<Readings, Refusal>,
    first: &[u8],
    second: &[u8],
) -> io::Result<Written> {
    match answer {
        Ok(Readings::One(n)) => {
            rt.write_all(b"one ")?;
            lists::write_first(rt, first, n.0)?;
            Ok(Written {
                first: n.0,
                ..Written::default()
            })
        }
        Ok(Readings::Two(n, k)) => {
            rt.write_all(b"two ")?;
            lists::write_first(rt, first, n.0)?;
            rt.write_all(b" ")?;
            lists::write_first(rt, second, k.0)?;
            Ok(Written {
                first: n.0,
                second: k.0,
            })
        }
        Err(r) => {
            write_refusal(rt, r)?;
            Ok(Written::default())
        }
    }
}

fn read_in(
    rt: &impl Print,
    value: Enlarged,
    message: &[u8],
    first: &mut [u8],
    second: &mut [u8],
    work: &mut [u64],
) -> io::Result<()> {
    let answer = reading::read(value, message, first, second, work);
    let written = write_reading(rt, answer, first, second)?;
    let kept = is_kept(first, written.first) && is_kept(second, written.second);
    buffers::write_kept(rt, kept)?;
    buffers::write_work(rt, work)
}

pub fn read(rt: &HostRuntime, line: &[u8]) -> io::Result<()> {
    let value = tables::of_trial(rt, line, 6);
    let mut message = [0u8; ENTRIES];
    let n = put_list(line, &mut message);
    let a = number_within(line, 3, buffers::ROOM);
    let b = number_within(line, 4, buffers::ROOM);
    let c = number_within(line, 5, buffers::ROOM);
    let mut first = [BEFORE; buffers::ROOM];
    let mut second = [BEFORE; buffers::ROOM];
    let mut work = [WORK_BEFORE; buffers::ROOM];
    read_in(
        rt,
        value,
        &message[..n],
        &mut first[..a],
        &mut second[..b],
        &mut work[..c],
    )
}
