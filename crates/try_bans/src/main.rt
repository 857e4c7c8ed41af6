// Enlarges codes by ban lists. Each argument names a sheet and a list, two files with a blank between. For each the program writes the refusal of the list, or the
// enlarged code, its copies, each with the word after which it stands, and the printed result of its verdict; and what becomes of the same list on the code that has
// copies now. Then it tries tables that no accepted sheet gives. Lines end with CR LF, as those of a printed result do.

#![tactic(auto)]

mod values;

use code::{Enlarged, Sheet};
use std::io;
use std::io::Print;
use try_common::each_argument;
use try_common::fields::field;
use try_common::results::{write_answer, write_line};
use values::{write_value, write_verdict};

fn from_sheet(sheet: &[u8]) -> Enlarged {
    well_enlarged::plain(sheet::take_in(sheet).code)
}

// Writes what a list makes of a code, and gives it.
fn enlarge(rt: &impl Print, value: Enlarged, list: &[u8]) -> io::Result<Enlarged> {
    let enlargement = ban_enlarge::enlarge(value, list);
    write_answer(rt, enlargement.answer)?;
    write_value(rt, enlargement.enlarged)?;
    Ok(enlargement.enlarged)
}

fn try_list(rt: &impl Print, value: Enlarged, list: &[u8]) -> io::Result<()> {
    let enlarged = enlarge(rt, value, list)?;
    write_verdict(rt, enlarged)?;
    enlarge(rt, enlarged, list)?;
    Ok(())
}

fn try_files(rt: &HostRuntime, sheet: &[u8], list: &[u8]) -> io::Result<()> {
    let mut bytes = [0u8; Sheet::BYTES + 1];
    let n = try_common::read_file(rt, sheet, &mut bytes);
    let value = from_sheet(&bytes[..n]);
    let mut bans = [0u8; Sheet::BYTES + 1];
    let k = try_common::read_file(rt, list, &mut bans);
    try_list(rt, value, &bans[..k])
}

fn try_argument(rt: &HostRuntime, names: &[u8]) -> io::Result<()> {
    write_line(rt, names)?;
    try_files(rt, field(names, 0), field(names, 1))
}

// Tables that no accepted sheet gives are refused before what is wrong with the list, but for its length.
fn try_refusals(rt: &impl Print) -> io::Result<()> {
    let mut value = from_sheet(b"0,1,1,1,1\r\n10,1,1,1,1\r\n01,1,1,1,1\r\n101,1,1,1,1\r\n");
    value.originals = 3;
    write_line(rt, b"code T with three originals")?;
    try_list(rt, value, b"0,0,1\r\n")?;
    try_list(rt, value, b"0,0,0\r\n")?;
    write_line(rt, b"code T with three originals, a list of 4,097 bytes")?;
    let long = [b'0'; Sheet::BYTES + 1];
    try_list(rt, value, &long)
}

fn main(rt: HostRuntime) -> io::Result<()> {
    each_argument(&rt, |names| try_argument(&rt, names))?;
    try_refusals(&rt)
}
