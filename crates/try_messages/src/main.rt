// Each argument is a trial, in fields with a blank between:
//     encode SHEET WORDS ROOM
//     read SHEET MESSAGE ROOM ROOM ROOM
//     next SHEET MESSAGE ROOM
//     split SHEET TEXT ROOM ROOM ROOM ROOM ROOM
//     split-by SHEET TEXT ROOM ROOM ROOM ROOM ROOM CLASSES
//     classes CLASSES
// TEXT is a list of bytes, or the bytes themselves behind an apostrophe. SHEET is a file, or two with a plus sign between, a sheet and a ban list; a ROOM is the
// length of a lent buffer; CLASSES is the file of a class sheet. After the rooms, or the class sheet of a splitting, the code may be changed by one of
//     count N    length X N    symbol X K N    entry X Y N    originals N    origin X N    behind X N
// or the classes by
//     class BYTE N
// The program writes the trial, its answer, and what the lent buffers then hold.

#![tactic(auto)]

mod buffers;
mod class_sheets;
mod lists;
mod next;
mod tables;
mod texts;
mod trials;

use std::io;
use std::io::Print;
use try_common::each_argument;
use try_common::fields::field;

fn try_line(rt: &HostRuntime, line: &[u8]) -> io::Result<()> {
    rt.write_all(line)?;
    rt.write_all(b": ")?;
    match field(line, 0) {
        b"encode" => trials::encode(rt, line)?,
        b"next" => next::name(rt, line)?,
        b"split" => texts::split(rt, line)?,
        b"split-by" => texts::split_lettered(rt, line)?,
        b"classes" => class_sheets::take(rt, line)?,
        _ => trials::read(rt, line)?,
    }
    rt.write_all(b"\n")
}

fn main(rt: HostRuntime) -> io::Result<()> {
    each_argument(&rt, |line| try_line(&rt, line))
}
