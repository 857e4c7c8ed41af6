// Takes a sheet on standard input, and a ban list from the file that its argument names, if it has one. Writes the printed result on standard output.

#![tactic(auto)]

ghost use Rattle.std.specs.Prelude.{◌<◌, ◌≡◌, length};
ghost use Rattle.code.specs.Definitions.Operations.{verdict_room};
ghost use Rattle.code.specs.Definitions.Sheets.{limits};
ghost use Rattle.io.specs.Counts.{IsPrefixLen};
ghost use Rattle.verdict.specs.Answers.{output_room, Gives, Shows, Answers, AnswersInput};

use code::{Enlargement, Pairs, Refusal, Sheet, Verdict};
use printing::Lengths;
use program::refusals::tell_answer;
use program::{argument_count, goes_on, read_named, read_standard, write_standard};
use std::io::Stderr;

#[derive(Clone, Copy)]
pub struct Output {}

impl Output {
    // Bytes that the longest result may take: a message and two readings that fill the verdict's buffers.
    pub const BYTES: usize = Lengths::FRAME
        + Pairs::ROOM
        + Lengths::NUMBER * (Pairs::ROOM + Pairs::ROOM);
}

// What a sheet and a ban list give: the refusal of the sheet; else that of the list, or the sheet's table with the copies that the list needs.
fn give(errors: Stderr, sheet: &[u8], list: &[u8]) -> Enlargement
    ensures { Gives sheet.now list.now result }
{
    let taken = sheet::take_in(sheet);
    let answer = taken.answer;
    tell_answer(errors, b"verdict: the sheet", answer);
    let value = well_enlarged::plain(taken.code);
    match answer {
        Err(_) => Enlargement {
            answer: answer,
            enlarged: value,
        },
        Ok(()) => {
            let given = ban_enlarge::enlarge(value, list);
            let listed = given.answer;
            tell_answer(errors, b"verdict: the ban list", listed);
            given
        }
    }
}

// The refusal of a sheet or a ban list, or the verdict on what they give. An ambiguous message and its readings stand at the start of their buffers.
fn judge(
    errors: Stderr,
    sheet: &[u8],
    list: &[u8],
    message: &mut [u8],
    first: &mut [u8],
    second: &mut [u8],
) -> Result<Verdict, Refusal>
    requires { (length message.old ≡ verdict_room limits) × (length first.old ≡ verdict_room limits) × (length second.old ≡ verdict_room limits) }
    ensures { Shows sheet.now list.now message.new first.new second.new result }
{
    let given = give(errors, sheet, list);
    given.answer?;
    let mut work = [0u64; Pairs::MARKS];
    decipher::verdict(given.enlarged, message, first, second, &mut work)
}

// Puts the printed result of a sheet and a ban list at the start of `out`, and gives its length.
fn answer(errors: Stderr, sheet: &[u8], list: &[u8], out: &mut [u8]) -> usize
    requires { length out.old ≡ output_room }
    ensures { Answers sheet.now list.now out.old out.new result }
{
    let mut message = [0u8; Pairs::ROOM];
    let mut first = [0u8; Pairs::ROOM];
    let mut second = [0u8; Pairs::ROOM];
    let judgement = judge(errors, sheet, list, &mut message, &mut first, &mut second);
    printing::print_result(judgement, &message, &first, &second, out)
}

// The answer to the first n bytes of an input and the first k of a file. Each buffer is longer than a sheet or a list may be, so what fills it is refused: that is
// said of a buffer and of a number, which stand side by side here.
fn answer_input(
    errors: Stderr,
    input: &[u8],
    n: usize,
    file: &[u8],
    k: usize,
    out: &mut [u8],
) -> usize
    requires { IsPrefixLen n input.now × IsPrefixLen k file.now × (limits.bytes < length input.now) × (limits.bytes < length file.now) × (length out.old ≡ output_room) }
    ensures { AnswersInput input.now n file.now k out.old out.new result }
{
    answer(errors, &input[..n], &file[..k], out)
}

// The answer to standard input, and to the file that the argument names, on standard output. What cannot be read or written is told on standard error, and a
// sheet or a list that was not read whole gets no answer.
fn main(rt: HostRuntime) {
    let arguments = argument_count(&rt);
    let goes = goes_on(
        &rt,
        arguments,
        2,
        b"verdict: cannot write standard output",
        b"usage: verdict [LIST.bans] < SHEET.csv\nSays whether the code of a sheet is ambiguous, or decipherable with which delay. docs/GUIDE.md has the form of a sheet and of a ban list, and what each refusal means.\n",
        b"verdict takes at most one argument; usage: verdict [LIST.bans] < SHEET.csv\n",
    );
    if !goes {
        return;
    }
    let mut file = [0u8; Sheet::BYTES + 1];
    // Without an argument the list has 0 bytes, which hold no ban.
    let listed = read_named(
        &rt,
        1,
        arguments,
        b"verdict: cannot read the ban list",
        &mut file,
    );
    let Ok(k) = listed else {
        return;
    };
    let mut input = [0u8; Sheet::BYTES + 1];
    let read = read_standard(&rt, b"verdict: cannot read standard input", &mut input);
    let Ok(n) = read else {
        return;
    };
    let mut out = [0u8; Output::BYTES];
    let length = answer_input(rt.stderr(), &input, n, &file, k, &mut out);
    write_standard(
        &rt,
        b"verdict: cannot write standard output",
        &out[..length],
    );
}
