// Gives the verdict on the sheet in each file that it is given: with buffers as long as need be, and with longer ones. Then tries buffers that are one
// entry short, tables that no accepted sheet gives, and the built-in code. Of each trial it writes the lengths of the lent buffers, the printed result, and what the
// buffers then hold. Lines end with CR LF, as those of a printed result do.

#![tactic(auto)]

mod buffers;
mod trials;

use code::{Code, Pairs, Sheet};
use std::io;
use std::io::Print;
use trials::{Lent, try_table};
use try_common::each_argument;
use try_common::results::write_line;

// What a verdict needs, and more than that.
const NEEDED: Lent = Lent {
    message: Pairs::ROOM,
    first: Pairs::ROOM,
    second: Pairs::ROOM,
    work: Pairs::MARKS,
};

const LONGER: Lent = Lent {
    message: buffers::ENTRIES - 2,
    first: buffers::ENTRIES - 1,
    second: buffers::ENTRIES,
    work: buffers::WORK_ENTRIES,
};

fn from_sheet(sheet: &[u8]) -> Code {
    sheet::take_in(sheet).code
}

fn try_code(rt: &impl Print, code: Code) -> io::Result<()> {
    try_table(rt, code, NEEDED)?;
    try_table(rt, code, LONGER)
}

fn try_file(rt: &HostRuntime, path: &[u8]) -> io::Result<()> {
    write_line(rt, path)?;
    let mut bytes = [0u8; Sheet::BYTES + 1];
    let n = try_common::read_file(rt, path, &mut bytes);
    try_code(rt, from_sheet(&bytes[..n]))
}

// Each buffer one entry short.
fn try_short(rt: &impl Print, code: Code) -> io::Result<()> {
    let less = Pairs::ROOM - 1;
    try_table(
        rt,
        code,
        Lent {
            message: less,
            ..NEEDED
        },
    )?;
    try_table(
        rt,
        code,
        Lent {
            first: less,
            ..NEEDED
        },
    )?;
    try_table(
        rt,
        code,
        Lent {
            second: less,
            ..NEEDED
        },
    )?;
    try_table(
        rt,
        code,
        Lent {
            work: Pairs::MARKS - 1,
            ..NEEDED
        },
    )
}

// No sheet gives a table with another count of words; this is refused before short buffers are.
fn try_count(rt: &impl Print, mut code: Code, count: usize) -> io::Result<()> {
    code.count = count;
    try_table(rt, code, LONGER)?;
    try_table(rt, code, Lent::default())
}

// Nor one with such a start mark.
fn try_mark(rt: &impl Print, mut code: Code, word: usize, mark: u8) -> io::Result<()> {
    if let Some(begins) = code.begins.get_mut(word) {
        *begins = mark;
        try_table(rt, code, LONGER)?;
    }
    Ok(())
}

fn try_refusals(rt: &impl Print) -> io::Result<()> {
    let t = from_sheet(b"0,1,1,1,1\r\n10,1,1,1,1\r\n01,1,1,1,1\r\n101,1,1,1,1\r\n");
    let u = from_sheet(b"0,1,1,0,0\r\n10,1,1,1,1\r\n01,1,1,0,0\r\n101,1,1,1,1\r\n");
    write_line(rt, b"short for code T")?;
    try_short(rt, t)?;
    write_line(rt, b"short for code U")?;
    try_short(rt, u)?;
    write_line(rt, b"code T with count 0")?;
    try_count(rt, t, 0)?;
    write_line(rt, b"code T with count 3")?;
    try_count(rt, t, 3)?;
    write_line(rt, b"code U with count 33")?;
    try_count(rt, u, 33)?;
    write_line(rt, b"code T with start mark 2")?;
    try_mark(rt, t, 3, 2)?;
    write_line(rt, b"code U with the start mark of a fifth word")?;
    try_mark(rt, u, 4, 1)
}

fn try_built_in(rt: &impl Print) -> io::Result<()> {
    write_line(rt, b"the twelve Turkish types, built in")?;
    try_code(rt, turkish::twelve())
}

fn main(rt: HostRuntime) -> io::Result<()> {
    each_argument(&rt, |name| try_file(&rt, name))?;
    try_refusals(&rt)?;
    try_built_in(&rt)
}
