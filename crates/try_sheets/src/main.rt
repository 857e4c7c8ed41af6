// Takes in each file that it is given and writes a line for it: its name, then `refused` and the number, or `accepted` and the table, each word's
// digits with its start mark and its row.

#![tactic(auto)]

use code::Sheet;
use std::io;
use std::io::Print;
use try_common::each_argument;
use try_common::results::write_answer;
use try_common::tables::write_table;

fn try_sheet(rt: &impl Print, sheet: &[u8]) -> io::Result<()> {
    let taken = sheet::take_in(sheet);
    write_answer(rt, taken.answer)?;
    if taken.answer.is_ok() {
        write_table(rt, taken.code)?;
    }
    rt.write_all(b"\n")
}

fn try_file(rt: &HostRuntime, path: &[u8]) -> io::Result<()> {
    rt.write_all(path)?;
    rt.write_all(b": ")?;
    let mut bytes = [0u8; Sheet::BYTES + 1];
    let n = try_common::read_file(rt, path, &mut bytes);
    try_sheet(rt, &bytes[..n])
}

fn main(rt: HostRuntime) -> io::Result<()> {
    each_argument(&rt, |name| try_file(&rt, name))
}
