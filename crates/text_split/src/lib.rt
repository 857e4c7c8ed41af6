// Splitting a text into syllables: each of its words is read by a code, and shown by what is found.

#![tactic(auto)]

ghost use Rattle.std.specs.Prelude.{◌≡◌, ◌≤◌};
ghost use Rattle.code.specs.Definitions.Operations.{zeroed};
ghost use Rattle.code.specs.Definitions.Sheets.{limits};
ghost use Rattle.code.specs.Definitions.Splitting.{SplitsText};
ghost use Rattle.code.specs.Definitions.Tables.{table_of};
ghost use Rattle.code.specs.Laws.Exactly.{Exactly};
ghost use Rattle.code.specs.Laws.WellFormed.{WellFormed};
ghost use Rattle.text_words.specs.Outputs.{SplitsInto};
ghost use Rattle.text_words.specs.Rooms.{Rooms};
ghost use Rattle.text_split.specs.Rooms.{Short};

use code::{ByteCount, Classes, Code, Enlarged, Refusal, Text, Word};
use read_sets::Sets;
use text_words::split_words;
use well_classed::well_classed;
use well_enlarged::well_enlarged;

// Splits a text by a well-formed code, in buffers that are long enough. Gives the length of the output.
fn split_by(
    code: Code,
    classes: &[u8; Classes::BYTES],
    text: &[u8],
    out: &mut [u8],
    message: &mut [u8],
    first: &mut [u8],
    second: &mut [u8],
    work: &mut [u64],
) -> usize
    requires { WellFormed limits code × Rooms text.now out.old message.old first.old second.old work.old }
    ensures { SplitsInto (table_of code) classes.now text.now out.old out.new result }
{
    let mut having = [0u64; Sets::SYMBOLS];
    let mut ends = [0u64; Word::SYMBOLS];
    let mut rows = [0u64; Code::WORDS];
    let mut lengths = [0usize; Code::WORDS];
    let longest = read_sets::lay(code, &mut having, &mut ends, &mut rows, &mut lengths);
    split_words(
        &having, &ends, &rows, &lengths, code.count, longest, classes, text, out, message, first,
        second, work,
    )
}

// Whether a buffer is too short for a text of `n` bytes, by the lengths of the five.
fn is_short(n: usize, out: usize, message: usize, first: usize, second: usize, work: usize) -> bool
    requires { n ≤ limits.text }
    ensures { Exactly result (Short n out message first second work) }
{
    if out < 2 * n + 1 {
        return true;
    }
    if message < n {
        return true;
    }
    if first < n {
        return true;
    }
    if second < n {
        return true;
    }
    work <= n
}

fn clear_all(message: &mut [u8], first: &mut [u8], second: &mut [u8], work: &mut [u64])
    ensures { (message.new ≡ zeroed message.old) × (first.new ≡ zeroed first.old)
        × (second.new ≡ zeroed second.old) × (work.new ≡ zeroed work.old) }
{
    message.fill(0);
    first.fill(0);
    second.fill(0);
    work.fill(0);
}

// Splits a text by a code with copies or without, and by letters of these classes: the length of the output, or the lowest refusal that holds.
pub fn split(
    e: Enlarged,
    classes: Classes,
    text: &[u8],
    out: &mut [u8],
    message: &mut [u8],
    first: &mut [u8],
    second: &mut [u8],
    work: &mut [u64],
) -> Result<ByteCount, Refusal>
    ensures { SplitsText limits e classes text.now out.old message.old first.old second.old
        work.old out.new message.new first.new second.new work.new result }
{
    if !well_enlarged(e) {
        return Err(Refusal::NotFromSheet);
    }
    if !well_classed(classes) {
        return Err(Refusal::NotFromSheet);
    }
    if Text::BYTES < text.len() {
        return Err(Refusal::MessageLength);
    }
    let short = is_short(
        text.len(),
        out.len(),
        message.len(),
        first.len(),
        second.len(),
        work.len(),
    );
    if short {
        return Err(Refusal::ShortBuffer);
    }
    let entries = classes.entries;
    let n = split_by(e.code, &entries, text, out, message, first, second, work);
    // Once, however many words there were.
    clear_all(message, first, second, work);
    Ok(ByteCount(n))
}
