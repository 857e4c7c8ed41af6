// What an operation gives, on standard output: a refusal, the answer to a sheet or a list, and the printed result of a verdict.

use code::{Pairs, Refusal, Verdict};
use printing::Lengths;
use std::io;
use std::io::Print;

// Bytes that the longest result may take.
const BYTES: usize = Lengths::FRAME + Pairs::ROOM + Lengths::NUMBER * (Pairs::ROOM + Pairs::ROOM);

// A line, which ends with CR LF as those of a printed result do.
pub fn write_line(rt: &impl Print, line: &[u8]) -> io::Result<()> {
    rt.write_all(line)?;
    rt.write_all(b"\r\n")
}

pub fn write_refusal(rt: &impl Print, refusal: Refusal) -> io::Result<()> {
    print!(rt; "refused {}", refusal.number())
}

// The answer to a sheet or a list.
pub fn write_answer(rt: &impl Print, answer: Result<(), Refusal>) -> io::Result<()> {
    match answer {
        Ok(()) => rt.write_all(b"accepted"),
        Err(refusal) => write_refusal(rt, refusal),
    }
}

// The printed result, with the message and the two readings that stand at the start of the verdict's buffers.
pub fn write_result(
    rt: &impl Print,
    judgement: Result<Verdict, Refusal>,
    message: &[u8],
    first: &[u8],
    second: &[u8],
) -> io::Result<()> {
    let mut out = [0u8; BYTES];
    let n = printing::print_result(judgement, message, first, second, &mut out);
    if let Some(result) = out.get(..n) {
        rt.write_all(result)?;
    }
    Ok(())
}
