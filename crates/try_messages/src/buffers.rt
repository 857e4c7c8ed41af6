// The lent buffers: how long they can be, and what became of them.

use code::{Message, Text};
use std::io;
use std::io::Print;
use try_common::buffers::{self, State};

// The greatest length that a buffer can be lent at: some more than the longest message needs, and for an output some more than the longest text needs.
pub const ROOM: usize = Message::SYMBOLS + 16;

pub const OUTPUT: usize = 2 * Text::BYTES + 16;

// Writes whether the buffers for results hold what they held before, past what is written.
pub fn write_kept(rt: &impl Print, kept: bool) -> io::Result<()> {
    rt.write_all(b"; ")?;
    buffers::write_kept(rt, kept)
}

// Writes what became of the working buffer.
pub fn write_work(rt: &impl Print, work: &[u64]) -> io::Result<()> {
    print!(rt; "; work {}", State::of(work))
}
