// A trial of naming the next word: lends the working buffer, writes the answer, and what the buffer holds then.

use crate::{buffers, tables, trials};
use code::{Enlarged, Refusal};
use std::io;
use std::io::Print;
use try_common::buffers::WORK_BEFORE;
use try_common::fields::number_within;
use try_common::results::write_refusal;

fn write_naming(rt: &impl Print, answer: Result<usize, Refusal>) -> io::Result<()> {
    match answer {
        Ok(x) => {
            rt.write_all(b"named ")?;
            rt.print(x)
        }
        Err(r) => write_refusal(rt, r),
    }
}

fn name_in(rt: &impl Print, value: Enlarged, message: &[u8], work: &mut [u64]) -> io::Result<()> {
    let answer = next_word::next_word(value, message, work);
    write_naming(rt, answer)?;
    buffers::write_work(rt, work)
}

pub fn name(rt: &HostRuntime, line: &[u8]) -> io::Result<()> {
    let value = tables::of_trial(rt, line, 4);
    let mut message = [0u8; trials::ENTRIES];
    let n = trials::put_list(line, &mut message);
    let room = number_within(line, 3, buffers::ROOM);
    let mut work = [WORK_BEFORE; buffers::ROOM];
    name_in(rt, value, &message[..n], &mut work[..room])
}
