// A trial: lends the buffers, writes the printed result, and what the buffers hold then.

ghost use Rattle.std.specs.Prelude.{◌≤◌, ◌+◌, ◌*◌};
ghost use Rattle.code.specs.Definitions.Operations.{verdict_room};
ghost use Rattle.code.specs.Definitions.Sheets.{limits};

use crate::buffers;
use code::{Code, Refusal, Verdict};
use std::io;
use std::io::Print;
use try_common::buffers::{BEFORE, State, WORK_BEFORE, is_kept, write_kept};
use try_common::results::write_result;

// Lengths of the four buffers.
#[derive(Clone, Copy, Default)]
pub struct Lent {
    pub message: usize,
    pub first: usize,
    pub second: usize,
    pub work: usize,
}

fn write_lent(rt: &impl Print, lent: Lent) -> io::Result<()> {
    print!(rt;
        "{} {} {} {}\r\n",
        lent.message, lent.first, lent.second, lent.work
    )
}

// How many entries of each buffer for results are written.
#[derive(Clone, Copy, Default)]
struct Written {
    message: usize,
    first: usize,
    second: usize,
}

fn how_much(judgement: Result<Verdict, Refusal>) -> Written {
    if let Ok(Verdict::Ambiguous(m, f, g)) = judgement {
        Written {
            message: m.0,
            first: f.0,
            second: g.0,
        }
    } else {
        Written::default()
    }
}

fn try_in(
    rt: &impl Print,
    code: Code,
    message: &mut [u8],
    first: &mut [u8],
    second: &mut [u8],
    work: &mut [u64],
) -> io::Result<()> {
    let judgement = decipher::verdict(well_enlarged::plain(code), message, first, second, work);
    write_result(rt, judgement, message, first, second)?;
    let written = how_much(judgement);
    let kept = is_kept(message, written.message)
        && is_kept(first, written.first)
        && is_kept(second, written.second);
    write_kept(rt, kept)?;
    print!(rt; ", work {}\r\n", State::of(work))
}

// Gives the verdict on a table, with buffers of these lengths.
pub fn try_table(rt: &impl Print, code: Code, lent: Lent) -> io::Result<()>
    requires { (lent.message ≤ verdict_room limits + 46) × (lent.first ≤ verdict_room limits + 46) × (lent.second ≤ verdict_room limits + 46)
        × (lent.work ≤ limits.total * limits.total + 16) }
{
    write_lent(rt, lent)?;
    let mut message = [BEFORE; buffers::ENTRIES];
    let mut first = [BEFORE; buffers::ENTRIES];
    let mut second = [BEFORE; buffers::ENTRIES];
    let mut work = [WORK_BEFORE; buffers::WORK_ENTRIES];
    try_in(
        rt,
        code,
        &mut message[..lent.message],
        &mut first[..lent.first],
        &mut second[..lent.second],
        &mut work[..lent.work],
    )
}
