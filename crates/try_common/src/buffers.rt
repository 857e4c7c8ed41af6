// Buffers that a trial lends: what they hold before, and what became of them.

ghost use Rattle.code.specs.Laws.Exactly.{Exactly};
ghost use Rattle.try_common.specs.All.{All};

use std::io::Print;
use std::{fmt, io};

// What every entry of a lent buffer holds before. No symbol and no word has this number.
pub const BEFORE: u8 = 200;

pub const WORK_BEFORE: u64 = BEFORE as u64;

// Whether all entries are `value`.
pub fn is_all<T: PartialEq>(entries: &[T], value: &T) -> bool
    ensures { Exactly result (All T.eq entries.now value.now) }
{
    entries.iter().all(|entry| *entry == *value)
}

// Whether the entries from `from` on hold what they held before.
pub fn is_kept(buffer: &[u8], from: usize) -> bool {
    buffer.get(from..).is_some_and(|rest| is_all(rest, &BEFORE))
}

// Writes whether the buffers for results hold what they held before, past what is written.
pub fn write_kept(rt: &impl Print, kept: bool) -> io::Result<()> {
    rt.print(if kept {
        "buffers kept"
    } else {
        "buffers changed"
    })
}

// What became of a buffer.
#[derive(Clone, Copy)]
pub enum State {
    Kept,
    Zero,
    Dirty,
}

impl State {
    pub fn of<T: PartialEq + From<u8> + Drop>(buffer: &[T]) -> State {
        if is_all(buffer, &T::from(BEFORE)) {
            State::Kept
        } else if is_all(buffer, &T::from(0)) {
            State::Zero
        } else {
            State::Dirty
        }
    }
}

impl fmt::Display for State {
    fn fmt<W: fmt::Write>(&self, f: &mut fmt::Formatter<W>) -> fmt::Result {
        f.write_str(match self {
            State::Kept => "kept",
            State::Zero => "zero",
            State::Dirty => "dirty",
        })
    }
}
